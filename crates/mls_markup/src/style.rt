//! How the page looks: on a narrow screen and on a wide one, light, dark and on paper.

/// What stands before the title: nothing is fetched, and no script runs.
pub(crate) const TOP: &str =
    "<!DOCTYPE html>\n<html lang=\"en\">\n<head>\n<meta charset=\"utf-8\">\n\
    <meta name=\"viewport\" content=\"width=device-width, initial-scale=1\">\n\
    <meta name=\"color-scheme\" content=\"light dark\">\n\
    <meta http-equiv=\"Content-Security-Policy\" content=\"default-src 'none'; style-src 'unsafe-inline'\">\n\
    <title>";

/// What stands behind the title: the style, and the beginning of the body.
pub(crate) const STYLE: &str = "</title>
<style>
:root { color-scheme: light dark; --ink: #1b1b1b; --paper: #ffffff; --soft: #595959; --rule: #c9c9c9;
  --tint: #f2f2f2; --granted: #1f6f43; --denied: #b3261e; --undefined: #6b6b6b; --held: #1d5fa8;
  --link: #0b57d0; }
@media screen and (prefers-color-scheme: dark) {
  :root { --ink: #e8e8e8; --paper: #161616; --soft: #b0b0b0; --rule: #4a4a4a; --tint: #242424;
    --granted: #6fcf97; --denied: #ff8a80; --undefined: #a8a8a8; --held: #8ab8f5; --link: #a8c7fa; }
}
* { box-sizing: border-box; }
body { margin: 0 auto; padding: 1rem; max-width: 70rem; font: 1rem/1.45 system-ui, sans-serif;
  color: var(--ink); background: var(--paper); overflow-wrap: anywhere; }
h1 { font-size: 1.5rem; line-height: 1.2; margin: 0 0 .5rem; }
h2 { font-size: 1.2rem; margin: 2rem 0 .25rem; border-top: 2px solid var(--rule); padding-top: .75rem; }
a { color: var(--link); }
:focus-visible { outline: 3px solid var(--link); outline-offset: 2px; }
nav ul { list-style: none; display: flex; flex-wrap: wrap; gap: .25rem 1rem; margin: .5rem 0; padding: 0; }
nav a { display: inline-block; padding: .25rem 0; }
.source, .more, .note, caption { color: var(--soft); font-size: .875rem; }
.source { margin: 0 0 .5rem; }
code, pre, .digest, .lattice text { font-family: ui-monospace, monospace; }
.short { list-style: none; margin: 0; padding: 0; }
.short li { margin: 0 0 .6rem; padding-left: .75rem; border-left: 4px solid var(--rule); }
.trend { display: block; width: 100%; height: 4.5rem; margin: .35rem 0 .1rem; background: var(--tint); }
table { border-collapse: collapse; width: 100%; margin: .75rem 0 1.25rem; }
caption { text-align: left; padding-bottom: .25rem; }
th, td { text-align: left; vertical-align: top; padding: .25rem .5rem .25rem 0;
  border-bottom: 1px solid var(--rule); }
thead th { font-size: .875rem; overflow-wrap: normal; }
th[scope=row] { font-weight: 600; min-width: 8.5rem; }
tr:has(.named) th { min-width: 12rem; }
.number { font-variant-numeric: tabular-nums; }
.why td { border-bottom: 1px solid var(--rule); padding-top: 0; }
.cause th, .cause td { border-bottom: 0; }
td ul, .terms ul { list-style: none; margin: 0; padding: 0; }
td li, .terms li { padding-left: 1em; text-indent: -1em; }
td .named li { display: inline; padding: 0; }
.named li:not(:last-child)::after { content: \", \"; }
.bar { display: block; width: 100%; min-width: 2.5rem; height: .6rem; background: var(--tint); }
.times { width: 28%; vertical-align: middle; }
.times .bar { height: .8rem; }
.granted { fill: var(--granted); }
.denied { fill: var(--denied); }
.undefined { fill: var(--undefined); }
.held path { fill: var(--held); stroke: var(--held); stroke-width: 1.5px; vector-effect: non-scaling-stroke; }
.wide { overflow-x: auto; }
.legend { list-style: none; margin: 0 0 .5rem; padding: 0; }
.legend li { padding-left: 1em; text-indent: -1em; }
.legend code, .grid td { white-space: pre; }
.grid table { width: max-content; }
.grid th, .grid td { padding: .15rem .6rem .15rem 0; vertical-align: baseline; font-size: .875rem; }
.grid td { font: .8rem/1.5 ui-monospace, monospace; }
.grid thead th { vertical-align: bottom; }
.grid thead div { writing-mode: vertical-rl; transform: rotate(180deg); max-height: 9rem; overflow: hidden;
  text-overflow: ellipsis; white-space: nowrap; }
.grid th[scope=row] { position: sticky; left: 0; min-width: 4rem; max-width: 9rem; background: var(--paper); }
.now { color: var(--held); font-weight: 700; }
.new { color: var(--denied); font-weight: 700; }
.never { color: var(--soft); }
.lattice { display: block; }
.link { stroke: var(--soft); stroke-width: 1.5; }
.down { stroke: var(--denied); stroke-dasharray: 5 3; }
.box { fill: var(--paper); stroke: var(--ink); stroke-width: 1.25; }
.lattice text { fill: var(--ink); font-size: 11.5px; text-anchor: middle; }
.label { font-weight: 700; }
summary { cursor: pointer; padding: .2rem 0; color: var(--link); }
pre { margin: 0 0 .5rem; padding: .5rem; background: var(--tint); white-space: pre-wrap; font-size: .875rem; }
.time { color: var(--soft); font-size: .875em; white-space: nowrap; }
@media (max-width: 30rem) {
  th, td { padding-right: .3rem; font-size: .85rem; }
  thead th { font-size: .75rem; }
  td { min-width: 2.6rem; }
  th[scope=row], tr:has(.named) th { min-width: 4.6rem; }
  .bar { min-width: 1.75rem; }
  .times { width: 30%; }
  .time { white-space: normal; }
}
@media print {
  :root { color-scheme: light; }
  @page { margin: 14mm; }
  html { font-size: 9.5pt; }
  body { padding: 0; max-width: none; line-height: 1.35; }
  h2 { margin-top: 1.2rem; }
  nav, .appendix { display: none; }
  .wide { overflow: visible; }
  .sheet { width: auto !important; }
  .grid td { font-size: .7rem; padding-right: .4rem; }
  .lattice { max-height: 100mm; max-width: 100%; margin: 0 auto; }
  tr, li, .lattice, .trend { break-inside: avoid; }
  tr:has(ul) { break-inside: auto; }
  .cause { break-after: avoid; }
  h2, .source, caption, thead { break-after: avoid; }
  summary { list-style: none; color: var(--soft); font-size: .875em; padding: 0; }
  summary::-webkit-details-marker { display: none; }
  pre { padding: .25rem .5rem; margin: 0; }
  details::details-content { content-visibility: visible; block-size: auto; }
}
</style>
</head>
<body>
";

/// What stands behind the body.
pub(crate) const BOTTOM: &str = "</body>\n</html>\n";
