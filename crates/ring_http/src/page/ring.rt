//! Made by tools/pages from crates/ring_http/page/script/ring.js: change it there.

/// Its text.
pub(crate) const TEXT: &str = "// New elements, and the ring of a group as a picture.

const CROWN = \"M-13 9 L-17 -6 L-8 1 L0 -10 L8 1 L17 -6 L13 9 Z\";
const SQUEEZED = { lengthAdjust: \"spacingAndGlyphs\" };

// A new element with attributes and text.
function make(name, attributes = {}, text = \"\", space = \"http://www.w3.org/1999/xhtml\") {
  const made = document.createElementNS(space, name);
  for (const [key, value] of Object.entries(attributes)) made.setAttribute(key, value);
  if (text) made.textContent = text;
  return made;
}

const draw = (name, attributes, text) => make(name, attributes, text, \"http://www.w3.org/2000/svg\");
const point = (angle, radius) => `translate(${200 + radius * Math.cos(angle)} ${200 + radius * Math.sin(angle)})`;
// Makes a text narrower if its letters, each as wide as EACH, do not fit into WIDTH.
const narrow = (text, each, width) => (text.length * each > width ? { textLength: width, ...SQUEEZED } : {});

// Where the members of a ring are and how large: their names are inside, or outside, or nowhere, as there is room.
function layout(members) {
  const count = members.length;
  const longest = Math.max(...members.map((member) => spell(member).length));
  const [inside, named] = [count <= 14, count <= 60];
  const radius = inside ? 134 : named ? 154 - 8 * Math.min(longest, 8) : 160;
  const size = Math.min(inside ? 30 : 14, Math.max(1.8, (Math.PI * radius * 0.72) / count));
  return { inside, named, radius, size, at: members.map((_, place) => (2 * Math.PI * place) / count - Math.PI / 2) };
}

// The circle, with an arrow between each member and its right neighbour if there is room.
function drawCircle(ring, plan) {
  ring.append(draw(\"circle\", { class: \"way\", cx: 200, cy: 200, r: plan.radius }));
  const half = Math.PI / plan.at.length; // of the angle between two members
  const room = plan.at.length > 1 && half * plan.radius - plan.size > 7;
  for (const angle of room ? plan.at : []) {
    const middle = angle + half;
    const transform = `${point(middle, plan.radius)} rotate(${(middle * 180) / Math.PI + 90})`;
    ring.append(draw(\"path\", { class: \"arrow\", d: \"M-4 -5 L5 0 L-4 5\", transform }));
  }
}

// One member: a disc with a tick if it knows the leader, else a square of broken lines.
function drawMember(said, member, plan, angle) {
  const kind = `member${isLeader(said, member) ? \" leading\" : \"\"}`;
  const all = draw(\"g\", { transform: point(angle, plan.radius), class: kind });
  all.append(draw(\"title\", {}, `${spell(member)}: ${partOf(said, member)}`));
  const [size, side] = [plan.size, 1.76 * plan.size];
  all.append(knows(said, member) ? draw(\"circle\", { class: \"knows\", r: size })
    : draw(\"rect\", { class: \"waits\", x: -side / 2, y: -side / 2, width: side, height: side, rx: size / 3 }));
  if (plan.inside) nameInside(all, said, member);
  else if (plan.named) nameOutside(all, member, angle, size);
  return all;
}

function nameInside(all, said, member) {
  const kind = knows(said, member) ? \"name upon\" : \"name\";
  const number = String(member.number);
  all.append(draw(\"text\", { class: kind, y: member.weight ? 0 : 5, ...narrow(number, 9.5, 46) }, number));
  if (member.weight) all.append(draw(\"text\", { class: `${kind} weight`, y: 14 }, `/${member.weight}`));
  if (!knows(said, member)) return;
  all.append(draw(\"circle\", { class: \"badge\", cx: 24, cy: 23, r: 9.5 }));
  all.append(draw(\"path\", { class: \"tick\", d: \"M20 23.5 L23 26.5 L28 20\" }));
}

// The name along the radius, so that neighbours do not cover each other. It is never upside down.
function nameOutside(all, member, angle, size) {
  const west = Math.cos(angle) < -0.001;
  const transform = `rotate(${(angle * 180) / Math.PI + (west ? 180 : 0)})`;
  const where = { class: west ? \"name west\" : \"name east\", x: west ? -size - 8 : size + 8, y: 4.5, transform };
  all.append(draw(\"text\", { ...where, ...narrow(spell(member), 8.3, 66) }, spell(member)));
}

// The leader's crown: upon a large member, and inside the ring next to a small one.
function drawCrown(plan, angle) {
  const inwards = `${point(angle, plan.radius - plan.size - 19)} scale(0.8)`;
  const upon = `${point(angle, plan.radius)} translate(0 ${-plan.size - 13})`;
  return draw(\"path\", { class: \"crown\", d: CROWN, transform: plan.inside ? upon : inwards });
}

function drawRing(said) {
  const [ring, term, plan] = [one(\"ring\"), lastTerm(said), layout(said.members)];
  ring.setAttribute(\"aria-label\", `Ring of ${many(said.members.length, \"member\")}: ${inWords(said)}, ${known(said)}.`);
  ring.replaceChildren();
  drawCircle(ring, plan);
  said.members.forEach((member, place) => ring.append(drawMember(said, member, plan, plan.at[place])));
  const leader = said.members.findIndex((member) => isLeader(said, member));
  if (leader >= 0) ring.append(drawCrown(plan, plan.at[leader]));
  const below = { led: known(said), left: \"has left\", electing: \"no leader yet\", idle: \"\" }[stateOf(said)];
  const [above, middle] = term ? [`term ${term.term}`, term.leader ? spell(term.leader) : \"electing\"] : [\"\", \"no term\"];
  ring.append(draw(\"text\", { class: \"centre\", x: 200, y: 174 }, above));
  const fitting = { x: 200, y: 208, ...narrow(middle, 18, 1.5 * (plan.radius - plan.size)) };
  ring.append(draw(\"text\", { class: term?.leader ? \"centre big\" : \"centre still\", ...fitting }, middle));
  ring.append(draw(\"text\", { class: \"centre\", x: 200, y: 240 }, below));
}

// The ring as the mark of a group in the list: a dot for each member, or only the leader's if there are many. There is
// no dot before the group was asked for.
function drawMark(mark, said) {
  mark.replaceChildren(draw(\"circle\", { class: \"way\", cx: 20, cy: 20, r: 15 }));
  said?.members.forEach((member, place) => {
    if (said.members.length > 20 && !isLeader(said, member)) return;
    const angle = (2 * Math.PI * place) / said.members.length - Math.PI / 2;
    const [cx, cy] = [20 + 15 * Math.cos(angle), 20 + 15 * Math.sin(angle)];
    const crown = { class: \"crown\", d: CROWN, transform: `translate(${cx} ${cy}) scale(0.33)` };
    const dot = { class: knows(said, member) ? \"knows\" : \"waits\", cx, cy, r: 3 };
    mark.append(isLeader(said, member) ? draw(\"path\", crown) : draw(\"circle\", dot));
  });
}
";
