//! Made by tools/pages from crates/ring_http/page/app.css: change it there.

/// Its text.
pub(crate) const TEXT: &str = "/* The style of the page of ringd.
   Nothing is said by color alone: each mark has a shape or a word too. */

:root {
  color-scheme: light dark;
  --ground: #f5f6f8;
  --panel: #ffffff;
  --ink: #1b2330;
  --quiet: #586374;
  --line: #dde2ea;
  --knows: #0d7463;
  --upon: #ffffff;
  --crown: #8a5600;
  --crown-fill: #f2b53c;
  --link: #1756a9;
  --chosen: #e8eef8;
  --alarm: #a3221a;
  --alarm-ground: #fdeceb;
  --unsure: #8a5300;
  --shadow: 0 1px 2px rgb(20 30 50 / 6%), 0 4px 16px rgb(20 30 50 / 5%);
}

@media (prefers-color-scheme: dark) {
  :root {
    --ground: #0e1319;
    --panel: #161d26;
    --ink: #e7ecf3;
    --quiet: #9aa7b8;
    --line: #2a3542;
    --knows: #4fc3a8;
    --upon: #08201b;
    --crown: #f0bd56;
    --crown-fill: #f0bd56;
    --link: #8ab8f5;
    --chosen: #1f2b3b;
    --alarm: #ffa198;
    --alarm-ground: #3a1a1a;
    --unsure: #e9b56a;
    --shadow: none;
  }
}

* { box-sizing: border-box; }

[hidden] { display: none !important; }

body {
  margin: 0;
  background: var(--ground);
  color: var(--ink);
  font: 16px/1.5 system-ui, -apple-system, \"Segoe UI\", Roboto, \"Noto Sans\", \"DejaVu Sans\", sans-serif;
  font-variant-numeric: tabular-nums;
}

h1, h2, h3, p, ul, ol, figure { margin: 0; padding: 0; }

ul, ol { list-style: none; }

h2 { font-size: 1.75rem; line-height: 1.2; letter-spacing: -0.01em; overflow-wrap: anywhere; }

h3 { font-size: 0.8125rem; font-weight: 600; color: var(--quiet); letter-spacing: 0.06em; text-transform: uppercase; }

a { color: var(--link); }

code { font-family: ui-monospace, \"DejaVu Sans Mono\", monospace; font-size: 0.92em; }

:focus-visible { outline: 3px solid var(--link); outline-offset: 2px; border-radius: 6px; }

.none, .count, .lead, .kind, .foot { color: var(--quiet); }

/* the text for an empty list is hidden if the list has something, or if nothing was heard yet */
ul:not(:empty) + .none, ol:not(:empty) + .none, .scroll:has(tbody:not(:empty)) + .none { display: none; }

[data-list=\"unknown\"] .none, .scroll:has(tbody:empty), details:has(ol:empty) { display: none; }

.skip { position: absolute; left: 1rem; top: -6rem; z-index: 1; margin: 0; background: var(--panel); }

.skip:focus { top: 0.5rem; }

[data-view=\"list\"] .skip { display: none; }

/* ---- the head ---- */

.top {
  display: flex;
  align-items: center;
  justify-content: space-between;
  gap: 1rem;
  max-width: 75rem;
  margin: 0 auto;
  padding: 1.25rem 1.5rem 0.75rem;
}

.brand { font-size: 1.25rem; line-height: 1.2; }

.brand a { display: inline-flex; align-items: center; gap: 0.5rem; color: var(--ink); text-decoration: none; }

.logo { width: 1.75rem; height: 1.75rem; }

.logo circle { fill: none; stroke: var(--knows); stroke-width: 3; }

.logo path { fill: var(--crown-fill); stroke: var(--ground); stroke-width: 1.5; stroke-linejoin: round; }

.service { display: inline-flex; align-items: center; gap: 0.5rem; color: var(--quiet); font-size: 0.9375rem; }

.service::before { content: \"\"; width: 0.7rem; height: 0.7rem; border: 2px solid var(--quiet); border-radius: 50%; }

[data-service=\"well\"] .service::before { background: var(--knows); border-color: var(--knows); }

[data-service=\"gone\"] .service, [data-service=\"ill\"] .service { color: var(--alarm); font-weight: 600; }

/* a square on its point, so that it differs without colors too */
[data-service=\"gone\"] .service::before, [data-service=\"ill\"] .service::before {
  border-color: var(--alarm);
  border-radius: 1px;
  transform: rotate(45deg);
}

.banner {
  max-width: 72rem;
  margin: 0 auto 0.75rem;
  padding: 0.75rem 1rem;
  border: 1px solid var(--alarm);
  border-left-width: 5px;
  border-radius: 8px;
  background: var(--alarm-ground);
  color: var(--alarm);
}

.others { border-color: var(--link); background: var(--panel); color: var(--ink); }

.others ul { display: flex; flex-wrap: wrap; gap: 0.5rem; margin-top: 0.5rem; }

.others a { display: block; padding: 0.5rem 0.875rem; border: 1px solid; border-radius: 8px; }

/* ---- the list: cards by itself, a column next to an open group ---- */

.columns { max-width: 75rem; margin: 0 auto; padding: 0.5rem 1.5rem 3rem; }

[data-view=\"group\"] .columns { display: grid; grid-template-columns: 17rem minmax(0, 1fr); gap: 2rem; }

[data-view=\"list\"] main { display: none; }

.count { margin-top: 0.25rem; }

.groups ul { display: grid; grid-template-columns: repeat(auto-fill, minmax(min(17rem, 100%), 1fr)); gap: 1rem; margin-top: 1.25rem; }

.groups .none { margin-top: 1.25rem; }

.groups a {
  display: grid;
  grid-template-columns: auto minmax(0, 1fr);
  align-content: center;
  column-gap: 0.875rem;
  height: 100%;
  padding: 0.875rem 1rem;
  border: 1px solid var(--line);
  border-radius: 14px;
  background: var(--panel);
  box-shadow: var(--shadow);
  color: inherit;
  text-decoration: none;
}

.groups a:hover { border-color: var(--link); }

.groups .mark { grid-row: span 2; align-self: center; width: 4rem; height: 4rem; }

.groups .title { align-self: end; font-weight: 600; overflow-wrap: anywhere; }

.groups .words { min-height: 2.7em; color: var(--quiet); font-size: 0.875rem; line-height: 1.35; white-space: pre-line; }

[data-view=\"group\"] .groups h2 { font-size: 1.125rem; }

[data-view=\"group\"] .groups ul { grid-template-columns: minmax(0, 1fr); gap: 0.25rem; margin: 0.75rem -0.75rem 0; }

[data-view=\"group\"] .groups a { padding: 0.375rem 0.75rem; border-color: transparent; background: none; box-shadow: none; }

[data-view=\"group\"] .groups a:hover { background: var(--chosen); }

[data-view=\"group\"] .groups a[aria-current=\"page\"] { border-color: var(--link); background: var(--chosen); }

[data-state=\"left\"] .words, [data-state=\"electing\"] .words { color: var(--unsure); }

[data-view=\"group\"] .groups .mark { width: 2.75rem; height: 2.75rem; }

.mark .way { stroke: var(--quiet); stroke-width: 1; opacity: 0.6; }

.mark .waits { stroke-width: 1; stroke-dasharray: none; }

/* ---- the group ---- */

main { min-width: 0; }

main:focus, #name:focus { outline: none; }

.lead { margin-top: 0.25rem; font-size: 1.0625rem; }

.kind { font-size: 0.9375rem; }

.back { display: none; }

.parts { display: grid; gap: 1rem; margin-top: 1.25rem; align-items: start; }

.stack { display: grid; grid-template-columns: minmax(0, 1fr); gap: 1rem; }

/* the ring and what was seen next to members and terms; an election that is open takes the whole width */
@media (width > 55rem) {
  .parts { grid-template: \"now side\" auto \"election side\" auto \"seen side\" 1fr / minmax(0, 1.2fr) minmax(0, 1fr); }
  .parts:has(.election[open]) { grid-template-areas: \"now side\" \"election election\" \"seen seen\"; }
  .parts:has(.election[hidden]) { grid-template: \"now side\" auto \"seen side\" 1fr / minmax(0, 1.2fr) minmax(0, 1fr); }
  .now { grid-area: now; }
  .election { grid-area: election; }
  .seen { grid-area: seen; }
  .stack { grid-area: side; }
}

.panel { padding: 1rem 1.25rem 1.125rem; border: 1px solid var(--line); border-radius: 14px; background: var(--panel); box-shadow: var(--shadow); }

.panel .none, .panel ol { margin-top: 0.625rem; }

#ring { display: block; width: 100%; max-width: 27rem; margin: 0 auto; }

.way { fill: none; stroke: var(--line); stroke-width: 2; }

.arrow { fill: none; stroke: var(--quiet); stroke-width: 1.75; stroke-linecap: round; stroke-linejoin: round; }

.knows { fill: var(--knows); }

.waits { fill: var(--panel); stroke: var(--quiet); stroke-width: 2; stroke-dasharray: 4 3; }

.leading .knows, .leading .waits { stroke: var(--crown-fill); stroke-width: 4; stroke-dasharray: none; }

.badge { fill: var(--knows); stroke: var(--panel); stroke-width: 2.5; }

.tick { fill: none; stroke: var(--upon); stroke-width: 2.5; stroke-linecap: round; stroke-linejoin: round; }

.crown { fill: var(--crown-fill); stroke: var(--crown); stroke-width: 1.5; stroke-linejoin: round; }

#ring text { fill: var(--ink); font-size: 15px; font-weight: 600; text-anchor: middle; }

#ring .upon { fill: var(--upon); }

#ring .weight { font-size: 12px; font-weight: 400; }

#ring .east, #ring .west { font-size: 13px; }

#ring .east { text-anchor: start; }

#ring .west { text-anchor: end; }

#ring .centre { fill: var(--quiet); font-weight: 400; }

#ring .big { fill: var(--ink); font-size: 28px; font-weight: 700; }

#ring .still { font-size: 20px; }

.legend { display: flex; flex-wrap: wrap; justify-content: center; gap: 0.25rem 1.25rem; color: var(--quiet); font-size: 0.875rem; }

.legend li { display: inline-flex; align-items: center; gap: 0.4rem; }

.legend svg { width: 1.1rem; height: 1.1rem; }

/* the picture of an election: as large as it is drawn, in a box that scrolls, on white also in the dark */
.election summary { margin-top: 0; }

.election figcaption { margin-top: 0.5rem; color: var(--quiet); font-size: 0.875rem; }

.chart { max-height: 34rem; margin-top: 0.625rem; overflow: auto; border: 1px solid var(--line); border-radius: 8px; background: #ffffff; }

.chart img { display: block; margin: 0 auto; color: #1b2330; }

/* ---- members, terms and what was seen ---- */

.scroll { max-height: 24rem; margin-top: 0.5rem; overflow: auto; }

table { width: 100%; border-collapse: collapse; }

thead th { color: var(--quiet); font-size: 0.8125rem; font-weight: 400; }

th, td { padding: 0.375rem 0.75rem 0.375rem 0; border-bottom: 1px solid var(--line); text-align: left; }

tbody tr:last-child > * { border-bottom: 0; }

tr.leads th, tr.leads .part { color: var(--crown); font-weight: 700; }

.terms li, .log li { display: flex; gap: 0.75rem; padding: 0.3125rem 0; border-bottom: 1px solid var(--line); }

.terms li:last-child, .log li:last-child { border-bottom: 0; }

.terms .term { min-width: 5.5rem; }

#terms li:first-child .term { font-weight: 600; }

.terms .open span + span { color: var(--quiet); font-style: italic; }

summary { margin-top: 0.5rem; color: var(--link); cursor: pointer; }

.log time { color: var(--quiet); }

button {
  margin-top: 0.75rem;
  padding: 0.375rem 0.875rem;
  border: 1px solid var(--line);
  border-radius: 8px;
  background: none;
  color: var(--link);
  font: inherit;
  cursor: pointer;
}

button:hover { background: var(--chosen); }

.foot { margin-top: 1rem; font-size: 0.875rem; }

/* what is shown may be old: without colors, in broken frames */
[data-service=\"gone\"] .parts, [data-service=\"gone\"] .groups ul { filter: grayscale(1); }

[data-service=\"gone\"] .panel, [data-service=\"gone\"] .groups a { border-style: dashed; border-color: var(--quiet); }

/* ---- a phone: the list or the group ---- */

@media (width <= 55rem) {
  .top { padding: 1rem 1rem 0.5rem; }
  .banner { margin: 0 1rem 0.75rem; }
  .columns { padding: 0.25rem 1rem 2rem; }
  [data-view=\"group\"] .columns { display: block; }
  [data-view=\"group\"] .groups { display: none; }
  .groups ul { gap: 0.75rem; }
  .groups a { padding: 0.625rem 0.875rem; }
  .groups .mark { width: 3.25rem; height: 3.25rem; }
  .back { display: inline-block; margin-bottom: 0.75rem; }
  .back::before { content: \"\\2039\\00a0\"; }
  .parts { grid-template-columns: minmax(0, 1fr); }
  .stack { display: contents; }
  .seen { order: 1; }
  .panel { padding: 0.875rem 1rem 1rem; }
  .legend { gap: 0.25rem 0.625rem; margin: 0 -0.5rem; font-size: 0.8125rem; }
  .legend li { gap: 0.25rem; }
}
";
