//! Made by tools/pages from crates/ring_http/page/script/words.js: change it there.

/// Its text.
pub(crate) const TEXT: &str = "// What an answer about a group says, in words.

const KINDS = { lelann: \"LeLann\", chang: \"Chang-Roberts\", hirschberg: \"Hirschberg-Sinclair\", peterson: \"Peterson\" };

const spell = (member) => (member.weight ? `${member.number}/${member.weight}` : `${member.number}`);
const lastTerm = (said) => said.terms[said.terms.length - 1];
const isLeader = (said, member) => lastTerm(said)?.leader?.number === member.number;
const knows = (said, member) => said.informed.includes(member.number);
const knowing = (said) => said.members.filter((member) => knows(said, member)).length;
const known = (said) => `known to ${knowing(said)} of ${said.members.length}`;

// How a group is, as a word: led, without its leader, electing, or not begun.
function stateOf(said) {
  const term = said && lastTerm(said);
  if (!term) return \"idle\";
  if (!term.leader) return \"electing\";
  return said.members.some((member) => isLeader(said, member)) ? \"led\" : \"left\";
}

// The same in words.
function inWords(said) {
  const term = lastTerm(said);
  if (!term) return \"no term yet\";
  if (!term.leader) return `term ${term.term}, no leader yet`;
  return `term ${term.term}, leader ${spell(term.leader)}${stateOf(said) === \"left\" ? \" has left\" : \"\"}`;
}

// What a member does in the last term.
function partOf(said, member) {
  if (isLeader(said, member)) return knows(said, member) ? \"leads\" : \"leads, but has not heard\";
  return knows(said, member) ? \"knows the leader\" : \"has not heard\";
}

// What has changed between two answers about a group, as sentences.
function changes(old, now) {
  const term = lastTerm(now);
  const find = (said, member) => said.members.find((other) => other.number === member.number);
  const joined = now.members.filter((member) => !find(old, member)).map(spell);
  const left = old.members.filter((member) => !find(now, member)).map(spell);
  const weighed = now.members.filter((member) => (find(old, member) ?? member).weight !== member.weight).map(spell);
  const hadLeader = now.terms.length === old.terms.length && lastTerm(old)?.leader;
  const heard = now.informed.some((number) => !old.informed.includes(number)) || !hadLeader;
  return [
    joined.length && `Joined: ${joined.join(\", \")}.`,
    left.length && `Left: ${left.join(\", \")}.`,
    weighed.length && `Joined again with another weight: ${weighed.join(\", \")}.`,
    now.terms.length > old.terms.length && `Term ${term.term} began.`,
    term?.leader && !hadLeader && `Leader of term ${term.term}: ${spell(term.leader)}.`,
    term?.leader && heard && `Now ${known(now)}.`,
  ].filter(Boolean);
}
";
