//! Made by tools/pages from crates/ring_http/page/script/others.js: change it there.

/// Its text.
pub(crate) const TEXT: &str = "// The other addresses of the service, as links.
//
// The address of this page names them: /?or=HOST:PORT,HOST:PORT. The policy lets no script ask another address whether
// anybody listens there. So this page cannot choose among them, and shows them all.

const MOST_OTHERS = 8; // addresses; a longer list is ignored as a whole
const MOST_PORT = 65535;
const ADDRESS = /^(?:127\\.0\\.0\\.1|localhost):([1-9][0-9]{0,4})$/; // of this machine, as the service wants its `Host`

const ownAddress = `${location.hostname}:${location.port || 80}`;
const isAddress = (text) => Number(ADDRESS.exec(text)?.[1] ?? Infinity) <= MOST_PORT;

// The other addresses in their order, each once. Text that is no address of this machine is left out.
function addressesIn(query) {
  const named = (new URLSearchParams(query).get(\"or\") ?? \"\").toLowerCase().split(\",\");
  if (named.length > MOST_OTHERS) return [];
  return [...new Set(named)].filter((text) => isAddress(text) && text !== ownAddress);
}

const others = addressesIn(location.search);

// This page at another address, with the same group. Its list begins with the next address, and has this one.
function pageAt(place) {
  const turned = [...others.slice(place + 1), ownAddress, ...others.slice(0, place)];
  return `http://${others[place]}/?or=${turned.join(\",\")}#/${page.open}`;
}

// A link to another address. It is kept, and so keeps the focus.
function otherLink(address) {
  const [line, link] = [make(\"li\"), make(\"a\", {}, address)];
  line.append(link);
  one(\"addresses\").append(line);
  return link;
}

// Shows the links while the service is gone. The focus does not go with them.
function showOthers() {
  const shown = others.length > 0 && document.body.dataset.service === \"gone\";
  if (!shown && one(\"others\").contains(document.activeElement)) one(\"service\").focus();
  one(\"others\").hidden = !shown;
  others.forEach((address, place) => {
    const link = one(\"addresses\").children[place]?.firstChild ?? otherLink(address);
    link.setAttribute(\"href\", pageAt(place));
  });
}
";
