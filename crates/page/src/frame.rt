//! What comes before and after the data and the picture of a page.

/// Up to the title.
pub const TOP: &str = r##"<!DOCTYPE html>
<html lang="en">
<head>
<meta charset="utf-8">
<meta name="viewport" content="width=device-width, initial-scale=1">
<meta http-equiv="Content-Security-Policy" content="default-src 'none'; style-src 'unsafe-inline'; script-src 'unsafe-inline'">
<title>"##;

/// After the title, up to the heading, which says the same.
pub const STYLE: &str = r##"</title>
<style>
:root { color-scheme: light dark; }
body { margin: 0; font: 1rem/1.4 system-ui, sans-serif; }
main { display: grid; grid-template: 100% / minmax(0, 1fr) minmax(20rem, 30rem); height: 100vh; height: 100dvh; }
#beside { order: 2; overflow: auto; padding: 0 1rem 1rem; }
#picture { order: 1; overflow: auto; background: #fff; }
#sheet { position: relative; width: max-content; cursor: pointer; }
#sheet svg { display: block; }
#sheet.large > #rows ~ svg { display: none; }
#rows { position: absolute; left: 0; }
#sheet:not(.large) > #rows { display: none; }
#cursor { position: absolute; z-index: 1; left: 0; right: 0; height: 18px; background: #ff0; opacity: .35; pointer-events: none; }
h1 { font-size: 1.1rem; margin: .6rem 0; }
#bar { display: flex; flex-wrap: wrap; gap: .4rem; align-items: center; }
#bar button { font: inherit; min-width: 2.5rem; min-height: 2.2rem; }
#slider { flex: 1 0 8rem; }
#line { font-weight: bold; min-height: 2.8em; margin: .6rem 0 .2rem; white-space: pre-line; }
#cut { white-space: pre-line; }
#cut:empty { display: none; }
.misfit { color: #c00; }
#next { min-height: 2.8em; margin: 0 0 .6rem; }
table { border-collapse: collapse; table-layout: fixed; width: 100%; margin: 0 0 .8rem; font-size: .95rem; overflow-wrap: anywhere; }
caption { text-align: left; font-weight: bold; }
th, td { text-align: left; vertical-align: top; padding: .1rem .4rem .1rem 0; border-bottom: 1px solid #8886; }
#legend { list-style: none; margin: .4rem 0; padding: 0; font-size: .95rem; }
#legend li { padding-left: 1.4rem; text-indent: -1.4rem; }
#legend b { display: inline-block; width: .9rem; margin-right: .5rem; text-indent: 0; }
#legend b:empty { height: .9rem; outline: 1px solid #8886; vertical-align: -.1rem; }
:focus-visible { outline: 2px solid #07c; outline-offset: 2px; }
@media (prefers-color-scheme: dark) {
  #picture { background: #000; }
  #sheet svg, #legend b { filter: invert(1) hue-rotate(180deg); }
  .misfit { color: #f88; }
}
@media (max-width: 50rem) {
  main { display: block; height: auto; }
  #picture { height: 60vh; }
}
@media print {
  main { display: block; height: auto; }
  #beside, #cursor { display: none; }
  #picture { overflow: visible; height: auto; background: #fff; }
  #sheet { width: auto !important; height: auto !important; }
  #sheet svg { max-width: 100%; height: auto; filter: none; }
  #sheet.large > #rows ~ svg { display: block; }
  #sheet.large > #rows { display: none; }
}
</style>
</head>
<body>
<main>
<section id="beside" aria-label="The state">
<h1>"##;

/// After the heading, up to the data.
pub const STATE: &str = r##"</h1>
<div id="bar" role="toolbar" aria-label="Steps">
<button id="first" aria-label="To the beginning">|◀</button>
<button id="back" aria-label="One line back">◀</button>
<button id="on" aria-label="One line on">▶</button>
<button id="last" aria-label="To the end">▶|</button>
<button id="play">Play</button>
<input id="slider" type="range" min="0" value="0" aria-label="The line that is shown">
<span id="place"></span>
</div>
<p id="cut"></p>
<p id="line" role="status"></p>
<p id="next"></p>
<table id="threads">
<caption>Threads</caption>
<thead><tr><th scope="col">thread</th><th scope="col" style="width: 45%">does</th><th scope="col" style="width: 9%">life</th><th scope="col">owns</th></tr></thead>
<tbody></tbody>
</table>
<table id="mutexes">
<caption>Mutexes</caption>
<thead><tr><th scope="col">mutex</th><th scope="col">is</th><th scope="col">owner</th><th scope="col" style="width: 36%">sleepers, in their order</th></tr></thead>
<tbody></tbody>
</table>
<table id="conditions">
<caption>Condition variables</caption>
<thead><tr><th scope="col">condition variable</th><th scope="col" style="width: 60%">waiters, in their order</th></tr></thead>
<tbody></tbody>
</table>
<p>Keys: left and right for a line, page up and down for ten, home and end. Or click on a row of the picture.</p>
<details>
<summary>Colours and marks of the picture</summary>
<ul id="legend">
<li><b style="background: #9bd"></b>in a lane: a call</li>
<li><b style="background: #ddd"></b>in a lane: sleep in a call</li>
<li><b style="background: #fbb"></b>in a lane: from a kill to the end of its walk</li>
<li><b style="background: #8c8"></b>in a mutex's band, on the left: it has an owner</li>
<li><b style="background: #fb6"></b>in a band: its owner has to declare it consistent</li>
<li><b style="background: #fdb"></b>in a band: an owner died, and nobody has been told yet</li>
<li><b style="background: #888"></b>in a band: it is unusable</li>
<li><b style="color: #222">●</b>a point</li>
<li><b style="color: #07c">→</b>a wake or a move</li>
<li><b style="color: #07c">○</b>a wake or a move, where no line of the event tells whose it is</li>
<li><b style="color: #c00">╳</b>a kill</li>
<li><b style="color: #c00">!</b>an owner's death</li>
<li><b style="color: #c00">†</b>a reaping</li>
<li><b style="color: #222">–</b>others: a begin, a return, a sleep, a renewal</li>
</ul>
</details>
<noscript><p>The picture shows all of the trace; to step through it, let this page run its script.</p></noscript>
</section>
<div id="picture" tabindex="0" role="region" aria-label="The picture of the trace, time running downwards">
<div id="sheet" role="img" aria-label="A lane for each thread, a band for each mutex, and a row for each line of the trace">
<div id="cursor" hidden></div>
<svg id="rows" xmlns="http://www.w3.org/2000/svg"></svg>
<script type="application/json" id="data">
"##;

/// After the data, before the script.
pub const BETWEEN: &str = "</script>\n<script>\n";

/// After the script, before the picture.
pub const BEHIND: &str = "</script>\n";

/// After the picture.
pub const BOTTOM: &str = "</div>\n</div>\n</main>\n</body>\n</html>\n";
