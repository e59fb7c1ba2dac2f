//! The page: everything in it, so that it works without a network.

/// What the page may do, as `Content-Security-Policy`: its own style and script run, by their
/// checksums (SHA-256 of what stands between their tags), and it asks nobody but this program.
pub const POLICY: &str = "default-src 'none'; connect-src 'self'; img-src data:; \
    style-src 'sha256-+3fUDDRyN+MFSZaeEB4jEf//+SIuqJR2s5wu4SJMySs='; \
    script-src 'sha256-aSB9LOHjoOZgok9h6F3D18F3BzOkbD1d/X4iU4jIa8Q='; \
    base-uri 'none'; form-action 'none'; frame-ancestors 'none'";

/// The page, in HTML.
pub const PAGE: &str = r##"<!doctype html>
<html lang="en">
<head>
<meta charset="utf-8">
<meta name="viewport" content="width=device-width, initial-scale=1">
<meta name="color-scheme" content="light dark">
<title>Two CFDP stations</title>
<link rel="icon" href="data:,">
<style>
:root {
  color-scheme: light dark;
  --back: #f3f5f8; --card: #ffffff; --line: #d5dbe4; --text: #16202c; --dim: #52606f;
  --blue: #1558b0; --green: #12703a; --amber: #8a5300; --red: #b3261e; --track: #e3e8ef;
  --on: #ffffff; --space: #eaf0f8;
}
@media (prefers-color-scheme: dark) {
  :root {
    --back: #0d131b; --card: #151e29; --line: #2a3746; --text: #e6edf5; --dim: #9fb0c2;
    --blue: #7cb5ff; --green: #6fd394; --amber: #f2b65a; --red: #ff8e86; --track: #253242;
    --on: #08111c; --space: #101a27;
  }
}
* { box-sizing: border-box; }
[hidden] { display: none !important; }
html { -webkit-text-size-adjust: 100%; }
body {
  margin: 0; background: var(--back); color: var(--text);
  font: 15px/1.45 system-ui, -apple-system, "Segoe UI", Roboto, "Noto Sans", sans-serif;
}
h1, h2, h3, p, ul, ol, dl, dd, figure, pre { margin: 0; padding: 0; }
ul, ol { list-style: none; }
h1 { font-size: 1.15rem; font-weight: 650; letter-spacing: -0.01em; }
h2 { font-size: 0.95rem; font-weight: 650; }
h3 { font-size: 0.86rem; font-weight: 650; color: var(--dim); margin: 0.8rem 0 0.3rem; }
a.skip { position: absolute; left: -999px; }
a.skip:focus { left: 1rem; top: 0.5rem; z-index: 9; background: var(--card);
  padding: 0.4rem 0.8rem; }
:focus-visible { outline: 3px solid var(--blue); outline-offset: 2px; border-radius: 6px; }
header {
  display: flex; flex-wrap: wrap; gap: 0.5rem 1rem; align-items: center;
  padding: 0.6rem 1.1rem; background: var(--card); border-bottom: 1px solid var(--line);
}
.fill { flex: 1; }
.dim { color: var(--dim); }
.num { font-variant-numeric: tabular-nums; }
.good { color: var(--green); } .bad { color: var(--red); } .fair { color: var(--amber); }
.pill {
  display: inline-flex; align-items: center; gap: 0.45rem; font-weight: 600; font-size: 0.86rem;
  border: 1px solid currentColor; border-radius: 99px; padding: 0.1rem 0.7rem 0.1rem 0.55rem;
}
.pill::before { content: ""; width: 0.6rem; height: 0.6rem; border-radius: 50%;
  background: currentColor; }
main {
  display: grid; gap: 0.9rem; padding: 0.9rem 1.1rem 1.2rem; max-width: 92rem; margin: 0 auto;
  grid-template-columns: minmax(0, 1.25fr) minmax(0, 1fr);
}
main > section { min-width: 0; background: var(--card); border: 1px solid var(--line);
  border-radius: 10px; }
.wide { grid-column: 1 / -1; }
.head { display: flex; flex-wrap: wrap; gap: 0.3rem 0.8rem; align-items: baseline;
  padding: 0.65rem 1rem 0.4rem; }
.head .dim { margin-left: auto; font-size: 0.86rem; }
.body { padding: 0 1rem 0.9rem; }
button, input, select, textarea { font: inherit; color: inherit; }
button, .button, select {
  background: var(--card); border: 1px solid var(--line); border-radius: 7px; cursor: pointer;
  min-height: 2.05rem; padding: 0.15rem 0.75rem;
}
button:hover, .button:hover { border-color: var(--blue); }
.button { display: inline-flex; align-items: center; color: var(--text); text-decoration: none; }
button:disabled { opacity: 0.5; cursor: default; border-color: var(--line); }
button.main { background: var(--blue); border-color: var(--blue); color: var(--on);
  font-weight: 600; }
button[aria-pressed="true"] { border-color: var(--blue); color: var(--blue); font-weight: 600; }
button.small, .button.small { min-height: 1.8rem; padding: 0 0.55rem; font-size: 0.86rem; }
button.harm { color: var(--red); }
input[type="text"], input[type="number"], textarea {
  background: var(--back); border: 1px solid var(--dim); border-radius: 7px;
  min-height: 2.05rem; padding: 0.15rem 0.55rem; width: 100%; min-width: 0;
}
label.line { display: grid; gap: 0.1rem; font-size: 0.82rem; color: var(--dim); }
label.check { display: inline-flex; gap: 0.4rem; align-items: center; font-size: 0.9rem; }
.row { display: flex; flex-wrap: wrap; gap: 0.45rem; align-items: center; }
.world { display: grid; gap: 0.9rem; padding: 0.2rem 1rem 0.6rem;
  grid-template-columns: minmax(12rem, 17rem) minmax(0, 1fr) minmax(12rem, 17rem); }
.station { border: 1px solid var(--line); border-radius: 9px; padding: 0.6rem 0.75rem;
  display: grid; gap: 0.5rem; align-content: start; background: var(--back); }
.station.over { border: 2px dashed var(--blue); }
.station h3 { margin: 0; color: var(--text); font-size: 0.95rem; display: flex; gap: 0.5rem; }
.station h3 .dim { margin-left: auto; font-weight: 400; font-size: 0.86rem; }
.station form { display: grid; grid-template-columns: 1fr 1fr; gap: 0.4rem; align-items: end; }
.station form > .row { grid-column: 1 / -1; }
.files { font-size: 0.86rem; display: grid; gap: 0.15rem; }
.files li { display: flex; gap: 0.5rem; overflow-wrap: anywhere; }
.files .num { margin-left: auto; white-space: nowrap; }
details > summary { cursor: pointer; color: var(--dim); font-size: 0.86rem; }
details[open] > summary { margin-bottom: 0.4rem; }
#scene { background: var(--space); border: 1px solid var(--line); border-radius: 9px;
  overflow: hidden; min-height: 17rem; }
#scene svg { display: block; width: 100%; }
#scene text { fill: var(--dim); font-size: 12px; }
#scene .name { fill: var(--text); font-size: 13px; font-weight: 650; }
#scene .post { fill: var(--card); stroke: var(--dim); stroke-width: 1.5; }
#scene .dish { fill: none; stroke: var(--dim); stroke-width: 2; stroke-linecap: round; }
#scene .bowl { fill: var(--card); stroke: var(--dim); stroke-width: 1.5; stroke-linejoin: round; }
#scene .spot { fill: var(--dim); }
#scene .lane { stroke: var(--line); stroke-width: 2; stroke-dasharray: 2 5; }
#scene .tip { fill: var(--line); }
.frame { cursor: pointer; }
.frame rect { fill: var(--blue); stroke: var(--card); stroke-width: 1.5; }
.frame.data rect { fill: var(--green); }
.frame.lost rect { fill: var(--red); }
#scene .frame text { fill: var(--on); font-size: 11px; font-weight: 650; text-anchor: middle; }
.frame.chosen rect { stroke: var(--text); stroke-width: 3; }
.frame:focus-visible { outline: none; }
.frame:focus-visible rect { stroke: var(--amber); stroke-width: 4; }
.bar { display: flex; flex-wrap: wrap; gap: 0.45rem; align-items: center;
  padding: 0 1rem 0.8rem; }
.scroll { max-height: 25rem; overflow: auto; border-top: 1px solid var(--line); }
#chart-box, #opened-body { height: 29rem; max-height: none; overflow: auto; }
#opened { display: flex; flex-direction: column; }
#opened-body { border-top: 1px solid var(--line); padding-top: 0.5rem; }
#opened h3:first-child { margin-top: 0; }
#opened .row + p { margin-top: 0.35rem; }
#chart { font-size: 0.86rem; padding: 0.3rem 0; }
#chart li { display: grid; grid-template-columns: 3.2rem minmax(0, 1fr); align-items: center;
  gap: 0.3rem; padding: 0 0.7rem 0 0.4rem; }
#chart .at { color: var(--dim); text-align: right; font-size: 0.8rem; }
#chart .step { position: relative; min-height: 1.5rem; border: solid var(--dim);
  border-width: 0 2px; display: flex; align-items: center; }
#chart .told { padding: 0 0.5rem; max-width: 60%; overflow-wrap: anywhere; }
#chart .at-2 .told { margin-left: auto; text-align: right; }
#chart button.arrow { all: unset; box-sizing: border-box; cursor: pointer; flex: 1; display: flex;
  align-items: center; gap: 0.4rem; padding: 0.1rem 0.35rem; overflow: hidden; }
#chart button.arrow:hover { background: var(--track); }
#chart button.arrow:focus-visible { outline: 3px solid var(--blue); outline-offset: -3px; }
#chart .shaft { flex: 1; min-width: 0.7rem; height: 0; border-top: 2px solid currentColor; }
#chart .thin .shaft { border-top: 2px dotted currentColor; }
#chart .words { color: var(--text); overflow-wrap: anywhere; text-align: center; }
#chart .from-1, #chart .from-2 { color: var(--blue); }
#chart .of-data { color: var(--green); }
#chart .is-lost, #chart .is-lost .words { color: var(--red); }
#chart .from-2 button.arrow { flex-direction: row-reverse; }
table { width: 100%; border-collapse: collapse; font-size: 0.88rem; }
th, td { text-align: left; padding: 0.28rem 0.6rem; border-bottom: 1px solid var(--line);
  vertical-align: top; }
th { color: var(--dim); font-weight: 600; font-size: 0.82rem; }
tr:last-child td { border-bottom: 0; }
td.num { white-space: nowrap; }
tr.over td { color: var(--dim); }
svg.gaps { display: block; width: 100%; max-width: 9rem; height: 0.7rem; margin-top: 0.25rem; }
svg.gaps .whole { fill: var(--track); } svg.gaps .here { fill: var(--green); }
pre, textarea { font: 12.5px/1.5 ui-monospace, "SF Mono", Menlo, Consolas, "DejaVu Sans Mono",
  monospace; }
pre.octets { white-space: pre; overflow-wrap: normal; }
pre { white-space: pre-wrap; overflow-wrap: anywhere; background: var(--back);
  border: 1px solid var(--line); border-radius: 7px; padding: 0.45rem 0.6rem; max-height: 16rem;
  overflow: auto; }
textarea { width: 100%; height: 13rem; resize: vertical; white-space: pre; }
#proved { padding: 0.7rem 1.1rem 1.4rem; max-width: 92rem; margin: 0 auto; font-size: 0.9rem; }
#proved ol { list-style: decimal; padding-left: 1.4rem; }
.none { color: var(--dim); padding: 0.4rem 1rem 0.9rem; }
.shut { position: absolute; left: -9999px; }
@media (max-width: 60rem) {
  main { grid-template-columns: minmax(0, 1fr); padding: 0.6rem 0.6rem 1rem; gap: 0.6rem; }
  .world { grid-template-columns: 1fr 1fr; gap: 0.5rem; padding: 0.2rem 0.6rem 0.6rem; }
  .world #scene { grid-column: 1 / -1; grid-row: 1; }
  .station form { grid-template-columns: 1fr; }
  .bar, .body { padding-left: 0.6rem; padding-right: 0.6rem; }
  header { padding: 0.5rem 0.7rem; }
  button, .button, select { min-height: 2.4rem; }
  #chart li { grid-template-columns: 2.4rem minmax(0, 1fr); }
  #chart-box, #opened-body { height: auto; max-height: 34rem; }
  #chart-box { max-height: 22rem; }
  #open-box thead { position: absolute; left: -9999px; }
  #open tr { display: flex; flex-wrap: wrap; gap: 0 0.8rem; padding: 0.45rem 0.6rem;
    border-bottom: 1px solid var(--line); }
  #open td { border: 0; padding: 0.1rem 0; }
  #open td:nth-child(n + 5) { flex: 1 0 100%; }
  header .fill { display: none; }
}
@media (max-width: 34rem) {
  .station h3 .dim { display: none; }
  .files li { flex-wrap: wrap; }
  .files .num { margin-left: 0; }
}
</style>
</head>
<body>
<a class="skip" href="#world">Skip to the stations</a>
<header>
  <h1>Two CFDP stations</h1>
  <span id="status" class="pill dim" role="status">no script has run yet</span>
  <span class="fill"></span>
  <label class="check">Example
    <select id="examples"><option value="">choose one</option></select></label>
  <label class="check">Speed
    <select id="speed">
      <option value="0.4">slow</option><option value="1" selected>normal</option>
      <option value="3">fast</option><option value="0">no animation</option>
    </select></label>
</header>
<p id="said" class="shut" aria-live="polite"></p>
<main>
  <section class="wide" id="world" tabindex="-1" aria-labelledby="world-title">
    <div class="head"><h2 id="world-title">Stations and link</h2>
      <span class="dim">Each lane keeps the order of its frames. No frame is duplicated or late, and
        no station restarts.</span></div>
    <div class="world">
      <div class="station" id="station-1"></div>
      <div id="scene" role="group" tabindex="-1"
        aria-label="The link: frames waiting in its lanes"></div>
      <div class="station" id="station-2"></div>
    </div>
    <div class="bar" role="group" aria-label="Controls">
      <button id="go" class="main" aria-pressed="false">Deliver all frames</button>
      <button id="settle" title="Send and deliver until nothing is due">Settle</button>
      <button id="recover" title="Settle, then fire timers until all is recovered">Recover</button>
      <button id="timer" title="Set the time of the next timer at its station">Next
        timer</button>
      <span class="fill"></span>
      <button id="first" title="Key: Home">First step</button>
      <button id="back" title="Key: ,">Step back</button>
      <button id="forth" title="Key: .">Step forward</button>
      <button id="anew" class="harm">Start over</button>
      <label class="check"><input id="eager" type="checkbox" checked>
        send due PDUs at once</label>
    </div>
  </section>
  <section aria-labelledby="chart-title">
    <div class="head"><h2 id="chart-title">Events</h2>
      <span class="dim"><label class="check"><input id="each" type="checkbox">
        show each frame</label></span></div>
    <div class="scroll" id="chart-box" tabindex="0" role="region" aria-labelledby="chart-title">
      <ol id="chart"></ol>
      <p id="no-chart" class="none">No events yet: drop a file on a station, or choose an
        example.</p>
    </div>
  </section>
  <section aria-labelledby="opened-title" id="opened" tabindex="-1">
    <div class="head"><h2 id="opened-title">Details</h2>
      <span class="dim" id="opened-state"></span></div>
    <div class="body" id="opened-body">
      <p class="dim">Select a frame in the link, or an event.</p>
    </div>
  </section>
  <section class="wide" aria-labelledby="open-title">
    <div class="head"><h2 id="open-title">Transactions</h2>
      <span class="dim">at the end of the run</span></div>
    <p id="no-open" class="none">No transactions.</p>
    <div class="scroll" id="open-box" hidden>
      <table>
        <thead><tr><th scope="col">Station</th><th scope="col">Id</th><th scope="col">File</th>
          <th scope="col">Phase</th><th scope="col">Octets</th><th scope="col">Timers</th>
          <th scope="col"><span class="shut">Actions</span></th></tr></thead>
        <tbody id="open"></tbody>
      </table>
    </div>
  </section>
  <section aria-labelledby="script-title">
    <div class="head"><h2 id="script-title">Script</h2><span id="ran" class="dim"></span></div>
    <div class="body">
      <label class="shut" for="text">The script</label>
      <textarea id="text" spellcheck="false" autocapitalize="off" autocomplete="off"></textarea>
      <div class="row">
        <button id="run" class="main">Run script</button>
        <button id="link">Copy link</button>
        <a id="save" class="button" download="play.script" href="#">Save</a>
        <label class="button">Open <input id="load" type="file" class="shut"></label>
      </div>
    </div>
  </section>
  <section aria-labelledby="report-title">
    <div class="head"><h2 id="report-title">Report</h2>
      <span class="dim">output of <code>cfdp_node sim</code> for this script</span></div>
    <div class="body"><pre id="report" tabindex="0" aria-labelledby="report-title"></pre></div>
  </section>
</main>
<footer id="proved">
  <h2>What is proved</h2>
  <ol>
    <li>The script runs in the proved world of two stations, by the same function as
      <code>cfdp_node sim</code>, so the report is the same.</li>
    <li>Whatever you lose, cancel, suspend or delay: an inbox contains only whole and correct files,
      no transaction is finished twice at a station, and a receiver that reports complete has
      received every octet.</li>
    <li>Settle always ends. Recover completes each transfer that was not cancelled, suspended,
      faulted or at a limit, if inactivity is ignored.</li>
    <li>Proved decoders read the fields of frames and PDUs. Not proved: the drawing, the division
      of frames into packets, the list of missing octets, your browser.</li>
  </ol>
</footer>
<script>
"use strict";
// The scripts of `examples/`.
const EXAMPLES = {
  hello: `\
file 1 a.txt hello
put 1 a.txt b.txt
settle
`,
  lost_frame: `\
# Metadata and EOF go out in a frame of directives, and the file in one of file data, which is lost.
# examples/lost_frame.mmd is its chart.
file 1 a.txt hello
put 1 a.txt b.txt
burst 1
strike 1 data

# The EOF arrives and shows what is missing: it is requested and sent again.
recover
`,
  losses: `\
# A file of 1,000 octets goes in ten segments. Two of them are lost, requested and sent again.

# \`set\`, \`file\` and \`fill\` come before all other commands. \`set\` holds for both stations.
set segment 100

# A file at station 1: 1,000 octets that are each 41 hexadecimal.
fill 1 a.bin 1000 41
put 1 a.bin b.bin

# Station 1 sends twelve PDUs, each in a frame of its own: Metadata, ten segments, EOF.
spread 1

# The third and the seventh segment are lost, and all else arrives.
deliver 1 3
strike 1
deliver 1 3
strike 1
deliver 1 4

# Station 2 acknowledges the EOF and asks for both gaps in one NAK. With them the file is complete.
settle
`,
  recovery: `\
# All that is sent at first is lost, and timers make up for it.
file 1 a.txt hello
put 1 a.txt b.txt

# Metadata, the file data and EOF: all three frames are lost.
spread 1
strike 1 3

# From here on no frame is lost. Station 1 waits for an ACK of its EOF: once that time is over it
# sends the EOF again, by which station 2 learns what it misses, and asks for it.
recover
`,
  timers: `\
# A station that receives no answer sends its EOF again, and then gives up: here it suspends the
# transaction, which its user then resumes.
set eof_limit 1
set on_ack_limit 1
file 1 a.txt hello
put 1 a.txt b.txt

# Metadata, the file data and EOF: all three are lost. The EOF is waited for 10 units of time.
spread 1
strike 1 3
tick 1 10

# It is sent once more, and lost again: a fault of condition 1, after which nothing is sent.
spread 1
strike 1
tick 1 20
# Nothing is due now: the report's "line 18 Nothing" is meant.
poll 1

# The user resumes the transaction, and the EOF's timer starts again. From then on no frame is lost.
resume 1 1:1
tick 1 30
settle
`,
};

const byId = (id) => document.getElementById(id);
const SVG = "http://www.w3.org/2000/svg";
const LANES = ["dir", "data"];
const LANE_NAMES = {dir: "directives", data: "file data"};
const calm = matchMedia("(prefers-reduced-motion: reduce)");

// The script's lines, and how many of them have run.
let lines = [], at = 0;
// What the last run was answered, and the lines of its trace.
let ran = null, seen = [];
// How many lines of the trace are drawn, and which of them is chosen.
let drawn = 0, chosen = null;
let going = false, asking = 0, shows = 0;

// ---- elements

// An element with these properties and children. Texts are never taken for markup.
function make(tag, given = {}, ...children) {
  const it = document.createElement(tag);
  for (const [name, value] of Object.entries(given)) {
    if (name.startsWith("on")) it.addEventListener(name.slice(2), value);
    else if (name in it && name !== "list") it[name] = value;
    else it.setAttribute(name, value);
  }
  it.append(...children);
  return it;
}

function draw(tag, given = {}, ...children) {
  const it = document.createElementNS(SVG, tag);
  for (const [name, value] of Object.entries(given)) it.setAttribute(name, value);
  it.append(...children);
  return it;
}

function say(text) {
  byId("said").textContent = "";
  requestAnimationFrame(() => { byId("said").textContent = text; });
}

// ---- the server

async function ask(path, body) {
  const answer = await fetch(path, {method: "POST", body});
  if (!answer.ok) throw new Error(await answer.text());
  return answer;
}

// Why a script isn't run, by the status and the words of an answer.
function reasonOf(status, words) {
  if (status !== 413) return `the server answers ${status}: ${words}`;
  return words || "the script has more than 65,536 octets; run it with `cfdp_node sim`";
}

// What no station and no frame does in the world that this page shows.
const disorder = /^(overtake|repeat|restart) /m;

async function runOf(text) {
  const verb = disorder.exec(text)?.[1];
  if (verb) {
    const error = `${verb}: not possible here, as frames keep their order and no station restarts; `
      + "run it with `cfdp_node sim`";
    return {error, status: 2, report: "", seen: null};
  }
  const answer = await fetch("/run", {method: "POST", body: text});
  if (answer.ok) return answer.json();
  const error = reasonOf(answer.status, await answer.text());
  return {error, status: 2, report: "", seen: null};
}

// What a line of the trace says.
function sightingOf(text, octets, place) {
  const [, line, event, station, verb, rest] = /^(\d+)\.(\d+) ([12]) (\w+) (.*)$/.exec(text);
  const it = {place, line: Number(line), event: Number(event), station: Number(station), octets};
  const frame = /^(dir|data) (frame|error) (.*)$/.exec(rest);
  if (frame && ["sends", "takes", "loses"].includes(verb)) {
    return {...it, kind: verb, lane: frame[1], words: `${frame[2]} ${frame[3]}`};
  }
  const kind = verb === "sends" ? "sends-pdu" : verb;
  return {...it, kind, words: rest};
}

// Ties each frame to the PDUs that end in it, and to what became of it.
function tie(all) {
  const waiting = {};
  const last = {};
  for (const it of all) {
    const lane = `${it.station} ${it.lane}`;
    if (it.kind === "sends") {
      (waiting[lane] ??= []).push(it);
      [it.pdus, it.fate, last[it.station]] = [[], null, it];
    } else if (it.kind === "sends-pdu") {
      it.frame = last[it.station] ?? null;
      it.frame?.pdus.push(it);
      it.lane = it.frame?.lane;
    } else if (it.kind === "takes" || it.kind === "loses") {
      const from = it.kind === "takes" ? 3 - it.station : it.station;
      it.frame = waiting[`${from} ${it.lane}`]?.shift() ?? null;
      if (it.frame) it.frame.fate = it;
      if (it.kind === "takes") last[`to ${it.station}`] = it.frame;
    } else if (it.kind === "hears") {
      it.frame = last[`to ${it.station}`] ?? null;
      it.lane = it.frame?.lane;
    }
  }
  return all;
}

function sightings(answer) {
  if (!answer.seen) return [];
  const all = answer.seen.trace.split("\n").slice(0, -1);
  return tie(all.map((text, place) => sightingOf(text, answer.seen.octets[place], place)));
}

// ---- the script

const text = () => lines.slice(0, at).map((it) => `${it}\n`).join("");
const isCommand = (line) => line !== "" && !/^(#|set |file |fill )/.test(line);

// Takes a text as the script, all of which is to run.
function takeText(whole) {
  lines = whole.replace(/\r/g, "").replace(/\n+$/, "").split("\n");
  if (lines.length === 1 && lines[0] === "") lines = [];
  at = lines.length;
}

// Runs the lines up to here, and shows what passes that wasn't shown before.
async function rerun(keeps = false) {
  const number = ++asking;
  let answer;
  try {
    answer = await runOf(text());
  } catch (error) {
    answer = {error: `no answer from the server: ${error.message}`, status: 3,
      report: "", seen: null};
  }
  if (number !== asking) return false;
  const before = drawn;
  [ran, seen] = [answer, sightings(answer)];
  drawn = keeps ? Math.min(before, seen.length) : seen.length;
  if (!keeps) chosen = null;
  showAll();
  if (keeps) await travel(before);
  return true;
}

// Lets these lines happen behind those that have run. Of the lines in `eager` only those stay that
// did something.
async function happens(wanted, eager = []) {
  const ahead = lines.slice(at).filter(isCommand);
  if (ahead.length) say("Removed the lines that had not run yet.");
  lines = [...lines.slice(0, at), ...wanted, ...eager];
  at = lines.length;
  const first = at - eager.length + 1;
  if (!(await rerun(true))) return;
  const done = new Set(seen.map((it) => it.line));
  const kept = eager.filter((_, place) => done.has(first + place));
  if (kept.length !== eager.length) {
    lines = [...lines.slice(0, first - 1), ...kept];
    at = lines.length;
    if (kept.length && !done.has(first)) await rerun(false);
    showScript();
  }
}

// What stations send by themselves behind a command, where they are to.
const spreads = (...stations) =>
  byId("eager").checked ? stations.map((it) => `spread ${it}`) : [];

// Puts a line in front of all commands.
function givesFirst(line) {
  const first = lines.findIndex(isCommand);
  const place = first < 0 ? lines.length : first;
  lines.splice(place, 0, line);
  if (place <= at) at += 1;
}

// ---- frames in the link

const waitingIn = (station, lane) => seen.filter((it) => it.kind === "sends" && it.lane === lane
  && it.station === station && it.place < drawn && !(it.fate && it.fate.place < drawn));

// Letters for the PDUs that end in a frame.
function letters(frame) {
  const all = frame.pdus.map((it) => it.words[0].toUpperCase());
  return all.length > 3 ? `${all.slice(0, 2).join("")}+` : all.join("") || "..";
}

const pdusIn = (frame) => frame.pdus.map((it) => it.words).join("; ") || "part of a PDU";

function nameOf(frame) {
  return `Frame of station ${frame.station}, ${LANE_NAMES[frame.lane]}: ${pdusIn(frame)}`;
}

// Where things are in the drawing, which is so wide.
function placesOf(width) {
  const end = width < 560 ? 44 : 62;
  return {width, end, from: end + 30, to: width - end - 30, height: 272,
    y: {"1 dir": 58, "1 data": 108, "2 dir": 172, "2 data": 222}};
}

const laneKeys = ["1 dir", "1 data", "2 dir", "2 data"];

function stationDrawing(number, x) {
  const [top, turn] = [52, number === 1 ? 1 : -1];
  return draw("g", {},
    draw("rect", {class: "post", x: x - 22, y: top + 8, width: 44, height: 192, rx: 9}),
    draw("path", {class: "dish", d: `M ${x} ${top + 8} l 0 -14`}),
    draw("path", {class: "bowl", d: `M ${x + 12 * turn} ${top - 40} q ${-30 * turn} 17 0 36 z`}),
    draw("path", {class: "dish", d: `M ${x - turn} ${top - 22} l ${18 * turn} 0`}),
    draw("circle", {class: "spot", cx: x + 17 * turn, cy: top - 22, r: 3}),
    draw("text", {class: "name", x, y: 150, "text-anchor": "middle"}, String(number)),
    draw("text", {x, y: 168, "text-anchor": "middle"}, `t=${clockOf(number)}`));
}

function laneDrawing(key, places) {
  const [station, lane] = key.split(" ");
  const y = places.y[key];
  const [from, to] = station === "1" ? [places.from, places.to] : [places.to, places.from];
  const turn = station === "1" ? 1 : -1;
  return draw("g", {},
    draw("line", {class: "lane", x1: from, y1: y, x2: to, y2: y}),
    draw("path", {class: "tip", d: `M ${to} ${y} l ${-9 * turn} -5 l 0 10 z`}),
    draw("text", {x: from, y: y - 17, "text-anchor": station === "1" ? "start" : "end"},
      station === "1" ? `${LANE_NAMES[lane]} \u2192` : `\u2190 ${LANE_NAMES[lane]}`));
}

// Where the frames stand that wait in a lane, the oldest one nearest to where they go.
function spotsIn(key, count, places) {
  const room = Math.max(1, Math.floor((places.to - places.from - 40) / 42));
  const shown = Math.min(count, room);
  const turn = key.startsWith("1") ? 1 : -1;
  const from = turn > 0 ? places.from : places.to;
  return {shown, x: (rank) => from + turn * (22 + 42 * (shown - 1 - rank)), y: places.y[key]};
}

function frameDrawing(frame, x, y) {
  const it = draw("g", {class: `frame ${frame.lane}`, transform: `translate(${x} ${y})`},
    draw("rect", {x: -19, y: -12, width: 38, height: 24, rx: 6}),
    draw("text", {y: 4}, letters(frame)));
  if (frame === chosen) it.classList.add("chosen");
  it.dataset.place = frame.place;
  return it;
}

function offered(it, frame) {
  it.setAttribute("role", "button");
  it.setAttribute("tabindex", "0");
  it.setAttribute("aria-label",
    `${nameOf(frame)}; waiting. Enter: open, d: deliver, l: lose, x: damage`);
  it.addEventListener("click", () => choose(frame, true));
  it.addEventListener("keydown", (event) => {
    if (event.key === "Enter" || event.key === " ") choose(frame, true);
    else if (event.key === "d") deliver(frame);
    else if (event.key === "l") strike(frame);
    else if (event.key === "x") damage(frame);
    else return;
    event.preventDefault();
  });
  return it;
}

function laneFrames(key, places) {
  const [station, lane] = [Number(key[0]), key.slice(2)];
  const all = waitingIn(station, lane);
  const spots = spotsIn(key, all.length, places);
  const found = all.slice(0, spots.shown).map((frame, rank) =>
    offered(frameDrawing(frame, spots.x(rank), spots.y), frame));
  if (all.length > spots.shown) {
    const x = station === 1 ? places.from - 4 : places.to + 4;
    found.push(draw("text", {x, y: spots.y + 4, "text-anchor": station === 1 ? "end" : "start"},
      `+${all.length - spots.shown}`));
  }
  return found;
}

function showScene() {
  const box = byId("scene");
  const places = placesOf(Math.max(300, box.clientWidth));
  const focused = document.activeElement?.dataset?.place;
  const svg = draw("svg", {viewBox: `0 0 ${places.width} ${places.height}`,
    height: places.height});
  svg.append(stationDrawing(1, places.end - 14),
    stationDrawing(2, places.width - places.end + 14));
  for (const key of laneKeys) svg.append(laneDrawing(key, places), ...laneFrames(key, places));
  box.replaceChildren(svg);
  if (focused !== undefined) focusNear(svg, seen[focused], Number(focused));
}

// Moves the focus to the frame that has this place in the trace. If it has left the link, the focus
// goes to the next one of its lane, or else to another frame.
function focusNear(svg, frame, place) {
  const all = [...svg.querySelectorAll("[data-place]")];
  const placeOf = (it) => Number(it.dataset.place);
  const isNear = (it) => seen[placeOf(it)]?.lane === frame?.lane
    && seen[placeOf(it)]?.station === frame?.station;
  const near = all.filter(isNear).sort((a, b) => placeOf(a) - placeOf(b));
  const next = near.find((it) => placeOf(it) >= place) ?? near[near.length - 1] ?? all[0];
  (next ?? byId("scene")).focus();
}

// ---- motion

const speed = () => calm.matches ? 0 : Number(byId("speed").value);
const pause = (time) => new Promise((done) => { setTimeout(done, time); });

// Moves the frame that is drawn for this one.
async function moves(frame, is_lost, time) {
  const places = placesOf(Math.max(300, byId("scene").clientWidth));
  const svg = byId("scene").querySelector("svg");
  const it = svg?.querySelector(`[data-place="${frame.place}"]`);
  if (!it) return;
  const hadFocus = it === document.activeElement;
  svg.append(it);
  if (hadFocus) it.focus();
  const key = `${frame.station} ${frame.lane}`;
  const rank = waitingIn(frame.station, frame.lane).indexOf(frame);
  const spots = spotsIn(key, waitingIn(frame.station, frame.lane).length, places);
  const [from, y] = [spots.x(Math.max(0, rank)), spots.y];
  const end = frame.station === 1 ? places.to + 12 : places.from - 12;
  const to = is_lost ? (from + end) / 2 : end;
  const begun = performance.now();
  if (is_lost) setTimeout(() => it.classList.add("lost"), time / 2);
  await new Promise((done) => {
    const step = (now) => {
      const part = Math.min(1, (now - begun) / time);
      const drop = is_lost && part > 0.5 ? (part - 0.5) * 60 : 0;
      it.setAttribute("transform", `translate(${from + (to - from) * part} ${y + drop})`);
      it.setAttribute("opacity", is_lost && part > 0.5 ? String(2 - 2 * part) : "1");
      if (part < 1 && it.isConnected) requestAnimationFrame(step);
      else done();
    };
    requestAnimationFrame(step);
  });
}

// Shows what passes from this line of the trace on.
async function travel(from) {
  const number = ++shows;
  const moved = seen.slice(from).filter((it) => it.kind === "takes" || it.kind === "loses").length;
  const time = speed() && Math.min(650 / speed(), 9000 / speed() / Math.max(1, moved));
  for (let place = from; place < seen.length && time >= 16; place += 1) {
    const it = seen[place];
    if ((it.kind === "takes" || it.kind === "loses") && it.frame) {
      drawn = place;
      showScene();
      showChart();
      await moves(it.frame, it.kind === "loses", time);
      if (number !== shows) return;
    }
  }
  drawn = seen.length;
  tells(from);
  showAll();
}

// Says what passed from this line of the trace on.
function tells(from) {
  const all = seen.slice(from);
  const count = (kind) => all.filter((it) => it.kind === kind).length;
  const parts = [["sends", "sent"], ["takes", "arrived"], ["loses", "lost"]]
    .filter(([kind]) => count(kind))
    .map(([kind, word]) => `${count(kind)} frame${count(kind) > 1 ? "s" : ""} ${word}`);
  const told = all.filter((it) => it.kind === "tells" || it.kind === "drops")
    .slice(-4).map((it) => `station ${it.station} ${it.kind} ${it.words}`);
  say([...parts, ...told].join("; ") || ran.error || "Nothing passed.");
}

// ---- what can be done

// The lines that let all frames before this one in its lane arrive.
function clears(frame) {
  const before = waitingIn(frame.station, frame.lane).indexOf(frame);
  if (before <= 0) return [];
  return [`deliver ${frame.station} ${frame.lane}${before > 1 ? ` ${before}` : ""}`];
}

const deliver = (frame) => happens(
  [...clears(frame), `deliver ${frame.station} ${frame.lane}`], spreads(3 - frame.station));

const strike = (frame) => happens(
  [...clears(frame), `strike ${frame.station} ${frame.lane}`],
  clears(frame).length ? spreads(3 - frame.station) : []);

// Damages a frame: its frames have a check then, by which that is seen.
async function damage(frame) {
  const octet = 255 - parseInt(frame.octets.slice(40, 42), 16);
  const hex = octet.toString(16).toUpperCase().padStart(2, "0");
  const wanted = [...clears(frame), `damage ${frame.station} ${frame.lane} 20 ${hex}`];
  const eager = clears(frame).length ? spreads(3 - frame.station) : [];
  if (!lines.slice(0, at).includes("set error_control 1")) {
    lines = lines.slice(0, at);
    givesFirst("set error_control 1");
    say("Frames have an error control field now, by which damage is seen.");
  }
  await happens(wanted, eager);
}

// The frame that was sent first, of all that wait.
function oldest() {
  const all = laneKeys.map((key) => waitingIn(Number(key[0]), key.slice(2))[0]).filter(Boolean);
  return all.sort((a, b) => a.place - b.place)[0];
}

async function go() {
  going = !going;
  showGo();
  while (going) {
    const next = oldest();
    if (!next) {
      say("No frame waits in the link.");
      break;
    }
    await deliver(next);
    if (ran?.error) break;
    await pause(speed() ? 120 / speed() : 0);
  }
  going = false;
  showGo();
}

function showGo() {
  byId("go").setAttribute("aria-pressed", String(going));
  byId("go").textContent = going ? "Hold the link" : "Let frames travel";
}

// The timer that expires next: but for inactivity where another one is armed.
function nextTimer() {
  const all = (ran?.seen?.standings ?? []).flatMap((it) =>
    ["eof_ack", "nak", "finished_ack", "inactivity"].map((name) =>
      ({station: it.station, name, at: it[name]})).filter((timer) => timer.at !== null));
  const sooner = (a, b) => (a.name === "inactivity") - (b.name === "inactivity") || a.at - b.at;
  return all.sort(sooner)[0];
}

async function timer() {
  const next = nextTimer();
  if (next) await happens([`tick ${next.station} ${next.at}`], spreads(next.station));
}

function clockOf(station) {
  const all = seen.filter((it) => it.kind === "ticks" && it.station === station
    && it.place < drawn);
  return all.length ? all[all.length - 1].words : "0";
}

async function steps(to) {
  going = false;
  const before = at;
  at = Math.max(0, Math.min(lines.length, to));
  await rerun(at > before);
  const line = at ? lines[at - 1] : "";
  say(`${at} of ${lines.length} lines run${line ? `, last: ${line}` : ""}`);
}

// The end of the command before this line, or behind it.
function commandBefore(line) {
  let place = line - 1;
  while (place > 0 && !isCommand(lines[place - 1])) place -= 1;
  return Math.max(0, place);
}

function commandBehind(line) {
  let place = line;
  while (place < lines.length && !isCommand(lines[place])) place += 1;
  return Math.min(lines.length, place + 1);
}

const firstCommand = () => {
  const place = lines.findIndex(isCommand);
  return place < 0 ? lines.length : place;
};

// ---- files

const names = () => lines.filter((it) => /^(file|fill) /.test(it)).map((it) => it.split(" "));

function freeName(station, wanted) {
  const plain = wanted.replace(/[^\x21-\x7e]/g, "_") || "file";
  const taken = new Set(names().filter((it) => it[1] === String(station)).map((it) => it[2]));
  let name = plain;
  for (let count = 2; taken.has(name); count += 1) name = `${count}-${plain}`;
  return name;
}

// Gives a station a file, and has it put that.
async function puts(station, wanted, line) {
  const name = freeName(station, wanted);
  lines = lines.slice(0, at);
  givesFirst(line(name));
  await happens([`put ${station} ${name} ${name}`], spreads(station));
}

const isLine = (octets) => octets.length > 0 && octets.length < 3800
  && octets.every((it) => it >= 32 && it < 127);

async function putFile(station, file) {
  const octets = new Uint8Array(await file.arrayBuffer());
  if (octets.length > 262144) {
    say(`${file.name} is too long for this page: more than 262,144 octets.`);
    byId("status").textContent = `${file.name} is too long for this page`;
    return;
  }
  const trimmed = octets[octets.length - 1] === 10 ? octets.slice(0, -1) : octets;
  if (isLine(trimmed)) {
    const words = new TextDecoder().decode(trimmed);
    await puts(station, file.name, (name) => `file ${station} ${name} ${words}`);
  } else {
    const octet = (octets[0] ?? 0).toString(16).padStart(2, "0");
    await puts(station, file.name,
      (name) => `fill ${station} ${name} ${octets.length} ${octet}`);
    say(`A script contains only text: ${octets.length} octets ${octet} replace this file.`);
  }
}

async function putFiles(station, files) {
  for (const file of files) await putFile(station, file);
}

// ---- stations

function stationPanel(station) {
  const call = (words, what) => make("button", {className: "small", type: "button", title: what,
    onclick: () => happens([`${words} ${station}`])}, words);
  const field = (name, label, value, type = "text") => make("label", {className: "line"}, label,
    make("input", {type, name, value, spellcheck: false, autocapitalize: "off",
      autocomplete: "off"}));
  const form = make("form", {onsubmit: (event) => {
    event.preventDefault();
    const content = event.target.elements.content.value;
    const name = event.target.elements.name.value;
    if (content) puts(station, name, (free) => `file ${station} ${free} ${content}`);
  }}, field("name", "Name", station === 1 ? "a.txt" : "b.txt"),
  field("content", "Content", "hello"),
  make("div", {className: "row"},
    make("button", {className: "small main"}, "Send"),
    make("label", {className: "button small"}, "Choose a file",
      make("input", {type: "file", className: "shut", onchange: (event) => {
        putFiles(station, [...event.target.files]);
        event.target.value = "";
      }}))));
  const tick = make("form", {onsubmit: (event) => {
    event.preventDefault();
    const now = event.target.elements.now.value;
    if (now) happens([`tick ${station} ${now}`], spreads(station));
  }}, field("now", "Time", "10", "number"),
  make("button", {className: "small"}, "tick"));
  return [make("h3", {}, `Station ${station}`,
    make("span", {className: "dim", id: `clock-${station}`})), form,
  make("div", {}, make("h3", {}, "Outbox"), make("ul", {className: "files", id: `out-${station}`})),
  make("div", {}, make("h3", {}, "Inbox"),
    make("ul", {className: "files", id: `in-${station}`})),
  make("details", {}, make("summary", {}, "More: single PDUs, time"),
    make("div", {className: "row"}, call("poll", "Send the next PDU"),
      call("flush", "Fill up and send the unfinished frame of each lane"),
      call("spread", "Send all due PDUs, each in its own frame"),
      call("burst", "Send all due PDUs, packed into frames")), tick)];
}

function makeStations() {
  for (const station of [1, 2]) {
    const box = byId(`station-${station}`);
    box.setAttribute("role", "group");
    box.setAttribute("aria-label", `Station ${station}: drop a file here to send it`);
    box.replaceChildren(...stationPanel(station));
    box.addEventListener("dragover", (event) => {
      event.preventDefault();
      box.classList.add("over");
    });
    box.addEventListener("dragleave", () => box.classList.remove("over"));
    box.addEventListener("drop", (event) => {
      event.preventDefault();
      box.classList.remove("over");
      putFiles(station, [...event.dataTransfer.files]);
    });
  }
}

const lengthOf = (words) => new TextEncoder().encode(words).length;

function showFiles() {
  const reported = (ran?.report ?? "").split("\n");
  for (const station of [1, 2]) {
    const given = names().filter((it) => it[1] === String(station)).map((it) =>
      [it[2], it[0] === "fill" ? it[3] : lengthOf(it.slice(3).join(" "))]);
    const came = reported.map((it) => it.split(" "))
      .filter((it) => it[0] === "inbox" && it[1] === String(station)).map((it) => [it[2], it[3]]);
    for (const [id, all] of [[`out-${station}`, given], [`in-${station}`, came]]) {
      byId(id).replaceChildren(...(all.length ? all.map(([name, size]) => make("li", {}, name,
        make("span", {className: "num dim"}, `${size} octets`)))
        : [make("li", {className: "dim"}, "none")]));
    }
    byId(`clock-${station}`).textContent = `time: ${clockOf(station)}`;
  }
}

// ---- the chart

const quiet = new Set(["sends", "sends-pdu", "takes"]);

function rowWords(it) {
  if (it.kind === "loses") return `lost: ${it.frame ? pdusIn(it.frame) : it.words}`;
  if (it.kind === "ticks") return `time ${it.words}`;
  if (it.kind === "drops") return `drops ${it.words}`;
  return it.words;
}

function chartRow(it) {
  const from = it.kind === "takes" || it.kind === "hears" ? 3 - it.station : it.station;
  const words = make("span", {className: "words"}, rowWords(it));
  const number = make("span", {className: "at num", title: `line ${it.line}, event ${it.event}`},
    `${it.line}.${it.event}`);
  if (["tells", "ticks", "drops"].includes(it.kind)) {
    const told = make("span", {className: "told"}, words);
    return make("li", {className: `at-${it.station} is-${it.kind}`}, number,
      make("span", {className: "step"}, told));
  }
  const is_lost = it.kind === "loses";
  const begins = it.kind.startsWith("sends");
  const end = is_lost ? "\u2715" : begins ? "\u2026" : from === 1 ? "\u25b6" : "\u25c0";
  const classes = [`from-${from}`, is_lost && "is-lost", it.lane === "data" && "of-data",
    (it.kind === "sends" || it.kind === "takes") && "thin"].filter(Boolean).join(" ");
  const way = `${{"sends": "sends a frame", "takes": "receives a frame", "loses": "loses a frame",
    "sends-pdu": "sends", "hears": "receives"}[it.kind]}`;
  const arrow = make("button", {className: "arrow", type: "button",
    "aria-label": `Station ${it.station} ${way}: ${rowWords(it)}`,
    onclick: () => choose(it, true)}, make("span", {className: "shaft"}), words,
  make("span", {className: "shaft"}), make("span", {}, end));
  return make("li", {className: classes}, number, make("span", {className: "step"}, arrow));
}

let charted = [];

function showChart() {
  const every = byId("each").checked;
  const all = seen.slice(0, drawn).filter((it) => every || !quiet.has(it.kind)).slice(-2000);
  const list = byId("chart");
  const isSame = charted.length <= all.length && charted.every((it, place) => it === all[place]);
  if (!isSame) {
    list.replaceChildren();
    charted = [];
  }
  list.append(...all.slice(charted.length).map(chartRow));
  if (all.length !== charted.length) {
    byId("chart-box").scrollTop = byId("chart-box").scrollHeight;
  }
  charted = all;
  byId("no-chart").hidden = all.length > 0;
}

// ---- a frame or a PDU, opened

const octetsOf = (hex) => hex.match(/../g)?.map((it) => parseInt(it, 16)) ?? [];

function dumpOf(hex) {
  const all = hex.toUpperCase().match(/.{1,32}/g) ?? [];
  return all.map((it, place) => {
    const shown = octetsOf(it).map((one) => one >= 32 && one < 127
      ? String.fromCharCode(one) : ".").join("");
    return `${(16 * place).toString().padStart(4)}  ${it.match(/../g).join(" ").padEnd(48)}`
      + shown;
  }).join("\n");
}

function fieldTable(told) {
  const rows = told.split("\n").filter(Boolean).map((line) => {
    const found = /^([^:]*): (.*?)(?: \(([^()]*\d[^()]*)\))?$/.exec(line);
    return make("tr", {}, make("td", {}, found ? found[1] : line),
      make("td", {}, found ? found[2] : ""), make("td", {className: "dim"}, found?.[3] ?? ""));
  });
  return make("table", {}, make("thead", {}, make("tr", {},
    ...["Field", "Value", "Standard"].map((it) => make("th", {scope: "col"}, it)))),
  make("tbody", {}, ...rows));
}

// The pieces of a frame's packet zone, by the packets that begin in it (CCSDS 133.0-B-2, 4.1).
function packetsOf(octets, shape) {
  const begin = 6 + shape.insert;
  const pointer = (octets[begin] % 8) * 256 + octets[begin + 1];
  const zone = octets.slice(begin + 2, begin + 2 + shape.zone);
  if (pointer >= 2046) {
    return [pointer === 2046 ? "idle data only" : `${zone.length} octets inside a packet`];
  }
  const found = pointer ? [`${pointer} octets: the end of an earlier packet`] : [];
  for (let place = pointer; place < zone.length;) {
    const head = zone.slice(place, place + 6);
    if (head.length < 6) {
      found.push(`${head.length} octets: the start of a packet header`);
      break;
    }
    const apid = (head[0] % 8) * 256 + head[1];
    const size = 7 + head[4] * 256 + head[5];
    const here = Math.min(size, zone.length - place);
    const count = (head[2] % 64) * 256 + head[3];
    const what = apid === 2047 ? "idle packet" : `packet of APID ${apid}, count ${count}`;
    found.push(`${what}, ${size} octets${here < size ? `, ${here} of them in this frame` : ""}`);
    place += here;
  }
  return found;
}

function list(all) {
  return make("ul", {}, ...all.map((it) => make("li", {}, it)));
}

function pduButton(it) {
  return make("button", {type: "button", className: "small", onclick: () => choose(it, true)},
    it.words);
}

function frameParts(frame) {
  const shape = ran.seen.shapes[frame.station - 1];
  const parts = [];
  if (!frame.fate) {
    const knob = (name, what, key, act) => make("button", {type: "button", className: what,
      title: `Key: ${key}`, onclick: () => act(frame)}, name);
    parts.push(make("div", {className: "row"}, knob("Deliver", "main", "d", deliver),
      knob("Lose", "harm", "l", strike), knob("Damage", "harm", "x", damage)));
    if (clears(frame).length) {
      parts.push(make("p", {className: "dim"}, "Earlier frames of its lane arrive first."));
    }
  }
  parts.push(make("h3", {}, "PDUs that end in this frame"));
  parts.push(frame.pdus.length ? make("div", {className: "row"}, ...frame.pdus.map(pduButton))
    : make("p", {className: "dim"}, "none"));
  parts.push(make("h3", {}, "Packets (CCSDS 133.0-B-2, 4.1)"));
  parts.push(list(packetsOf(octetsOf(frame.octets), shape)));
  return parts;
}

function stateOf(it) {
  if (it.kind !== "sends") return `line ${it.line}, event ${it.event}`;
  if (!it.fate) return "waiting in the link";
  return it.fate.kind === "takes" ? "delivered" : "lost";
}

// What the fields of this are asked by.
function question(it) {
  if (it.kind === "sends-pdu" || it.kind === "hears") return `pdus\n${it.octets}\n`;
  const shape = ran.seen.shapes[it.station - 1];
  const words = [shape.zone, shape.insert, Number(shape.control), Number(shape.check)];
  return `frames ${words.join(" ")}\n${it.octets}\n`;
}

async function choose(sighting, moves_focus) {
  const it = ["takes", "loses"].includes(sighting.kind) ? sighting.frame ?? sighting : sighting;
  chosen = it;
  showScene();
  const is_frame = it.kind === "sends";
  byId("opened-title").textContent = is_frame ? nameOf(it)
    : `PDU of station ${it.kind === "hears" ? 3 - it.station : it.station}: ${it.words}`;
  byId("opened-state").textContent = stateOf(it);
  const fields = make("div", {}, "..");
  byId("opened-body").replaceChildren(...(is_frame ? frameParts(it) : []),
    ...(!is_frame && it.frame ? [make("p", {}, make("button", {type: "button", className: "small",
      onclick: () => choose(it.frame, true)}, "Show the frame in which it ends"))] : []),
    make("h3", {}, "Fields"), fields, make("h3", {}, `Octets: ${it.octets.length / 2}`),
    make("pre", {className: "octets", tabIndex: 0, "aria-label": "Octets"}, dumpOf(it.octets)));
  if (moves_focus) byId("opened").focus({preventScroll: innerWidth > 960});
  try {
    fields.replaceChildren(fieldTable(await (await ask("/fields", question(it))).text()));
  } catch (error) {
    fields.textContent = error.message;
  }
}

function showChosen() {
  const place = chosen?.place;
  if (place === undefined) return;
  const it = seen[place];
  if (it && it.octets === chosen.octets && it.kind === chosen.kind) choose(it, false);
  else {
    chosen = null;
    byId("opened-title").textContent = "Details";
    byId("opened-state").textContent = "";
    byId("opened-body").replaceChildren(make("p", {className: "dim"},
      "Select a frame in the link, or an event."));
  }
}

// ---- transactions

// What is known of the file of a transaction by the PDUs that were sent.
function fileOf(id) {
  const sent = seen.find((it) => it.kind === "sends-pdu"
    && it.words.startsWith(`metadata ${id} `));
  if (!sent) return null;
  const [, , , size, source, destination] = sent.words.split(" ");
  return {size: Number(size), source, destination};
}

// The octets of a file that a station heard, as ranges in order.
function heardBy(station, id) {
  const all = seen.filter((it) => it.kind === "hears" && it.station === station
    && it.words.startsWith(`data ${id} `)).map((it) => it.words.split(" ").slice(2).map(Number))
    .map(([from, length]) => [from, from + length]).sort((a, b) => a[0] - b[0]);
  const joined = [];
  for (const [from, to] of all) {
    const last = joined[joined.length - 1];
    if (last && from <= last[1]) last[1] = Math.max(last[1], to);
    else joined.push([from, to]);
  }
  return joined;
}

function gapsIn(heard, size) {
  const gaps = [];
  let place = 0;
  for (const [from, to] of [...heard, [size, size]]) {
    if (from > place) gaps.push([place, from]);
    place = Math.max(place, to);
  }
  return gaps;
}

// What a station reported of the end of a transaction: the condition, the delivery and the status.
function endOf(it) {
  const told = seen.filter((one) => one.kind === "tells" && one.station === it.station
    && one.words.startsWith(`finished ${it.id} `));
  return told.length ? told[told.length - 1].words.split(" ").slice(2) : null;
}

// What a receiver has whose file isn't being received any more: its record holds no octets then.
function endedCell(it, size) {
  const end = endOf(it);
  if (!end) return [`${it.progress ?? 0}${size ? ` of ${size}` : ""}`];
  const [, delivery, status] = end;
  if (delivery === "complete" && status === "retained") return [`received ${size} of ${size}`];
  return [`${delivery}, ${status}`];
}

function octetsCell(it, file) {
  const is_sender = it.id.split(":")[0] === String(it.station);
  const size = file ? ` of ${file.size}` : "";
  if (is_sender) return [`sent ${it.progress ?? 0}${size}`];
  if (it.phase !== "receiving" || !file) return endedCell(it, file?.size);
  const heard = heardBy(it.station, it.id);
  const gaps = gapsIn(heard, file.size);
  const bar = draw("svg", {class: "gaps", viewBox: "0 0 100 10", preserveAspectRatio: "none",
    "aria-hidden": "true"}, draw("rect", {class: "whole", width: 100, height: 10}));
  for (const [from, to] of heard) {
    const part = 100 / Math.max(1, file.size);
    bar.append(draw("rect", {class: "here", x: from * part, width: (to - from) * part,
      height: 10}));
  }
  const named = gaps.slice(0, 6).map(([from, to]) => `${from}-${to}`).join(" ");
  return [gaps.length ? `missing: ${named}${gaps.length > 6 ? " .." : ""}` : "all received", bar];
}

const TIMER_NAMES = {eof_ack: "ACK of EOF", nak: "data requested by NAK",
  finished_ack: "ACK of Finished", inactivity: "any PDU"};

function timersOf(it) {
  return Object.entries(TIMER_NAMES).filter(([name]) => it[name] !== null)
    .map(([name, words]) => `${words}: ${it[name]}`).join("; ") || "-";
}

// Whether a transaction is suspended at a station.
function isHeld(it) {
  const told = seen.filter((one) => one.kind === "tells" && one.station === it.station
    && new RegExp(`^(suspended|resumed) ${it.id}( |$)`).test(one.words));
  return told.length > 0 && told[told.length - 1].words.startsWith("suspended");
}

function knobsOf(it) {
  const knob = (name, line, harm) => make("button", {type: "button",
    className: `small${harm ? " harm" : ""}`,
    "aria-label": `${name} ${it.id} at station ${it.station}`,
    onclick: () => happens([line], spreads(it.station))}, name);
  const is_sender = it.id.split(":")[0] === String(it.station);
  const held = isHeld(it);
  return make("div", {className: "row"},
    knob(held ? "Resume" : "Suspend", `${held ? "resume" : "suspend"} ${it.station} ${it.id}`),
    ...(is_sender ? [knob("Prompt", `prompt ${it.station} ${it.id} nak`)] : []),
    knob("Cancel", `cancel ${it.station} ${it.id}`, true));
}

function openRow(it) {
  const file = fileOf(it.id);
  const is_over = it.phase === "closed";
  const phase = is_over ? "closed" : isHeld(it) ? `${it.phase}, suspended` : it.phase;
  return make("tr", {className: is_over ? "over" : ""},
    make("td", {className: "num"}, `station ${it.station}`),
    make("td", {className: "num"}, it.id),
    make("td", {}, file ? `${file.source} \u2192 ${file.destination}` : "-"),
    make("td", {}, phase), make("td", {}, ...octetsCell(it, file)),
    make("td", {}, timersOf(it)), make("td", {}, ...(is_over ? [] : [knobsOf(it)])));
}

function showOpen() {
  const all = ran?.seen?.standings ?? [];
  byId("open").replaceChildren(...all.slice(0, 128).map(openRow));
  byId("open-box").hidden = all.length === 0;
  byId("no-open").hidden = all.length > 0;
}

// ---- all of it

function showStatus() {
  const last = (ran?.report ?? "").trimEnd().split("\n").pop();
  const [words, kind] = !ran ? ["no script has run yet", "dim"]
    : ran.error ? [ran.error, "bad"]
      : ran.status === 0 ? [last, seen.length ? "good" : "dim"] : [last, "fair"];
  byId("status").textContent = words;
  byId("status").className = `pill ${kind}`;
}

// The part of the address that carries a script: none where it would be too long.
function addressOf(whole) {
  const address = `#${encodeURIComponent(whole)}`;
  return lines.length && address.length < 60000 ? address : "#";
}

function showScript() {
  const whole = lines.map((it) => `${it}\n`).join("");
  if (byId("text") !== document.activeElement) byId("text").value = whole;
  byId("ran").textContent = `${at} of ${lines.length} lines run`;
  byId("save").href = `data:text/plain;charset=utf-8,${encodeURIComponent(whole)}`;
  if (location.hash !== addressOf(whole)) history.replaceState(null, "", addressOf(whole));
  byId("back").disabled = byId("first").disabled = at <= firstCommand();
  byId("forth").disabled = at >= lines.length;
  byId("timer").disabled = !nextTimer();
  const next = nextTimer();
  byId("timer").textContent = next ? `Next timer: ${next.at}` : "Next timer";
}

function showAll() {
  const cut = ran?.seen?.cut ? "\n(Too many events: not all of them are shown above.)" : "";
  const status = ran ? `exit status ${ran.status}` : "";
  byId("report").textContent = `${ran?.error ? `${ran.error}\n` : ""}${ran?.report ?? ""}`
    + `${status}${cut}`;
  showStatus();
  showScript();
  showScene();
  showChart();
  showOpen();
  showFiles();
  showChosen();
}

async function starts(whole, keeps = false) {
  going = false;
  takeText(whole);
  if (keeps) [drawn, seen, chosen] = [0, [], null];
  await rerun(keeps);
}

function fromAddress() {
  try {
    return decodeURIComponent(location.hash.slice(1));
  } catch {
    return "";
  }
}

async function copyAddress() {
  if (lines.length && location.hash.length < 2) {
    say("The script is too long for a link: save it instead.");
    return;
  }
  try {
    await navigator.clipboard.writeText(location.href);
    say("Link copied. Open it on this machine to see the same run.");
  } catch {
    say("Cannot copy: take the link from the address bar.");
  }
}

function listen() {
  const on = (id, act) => byId(id).addEventListener("click", act);
  on("go", go);
  on("settle", () => happens(["settle"]));
  on("recover", () => happens(["recover"]));
  on("timer", timer);
  on("first", () => steps(firstCommand()));
  on("back", () => steps(commandBefore(at)));
  on("forth", () => steps(commandBehind(at)));
  on("anew", () => starts(""));
  on("run", () => starts(byId("text").value, true));
  on("link", copyAddress);
  byId("each").addEventListener("change", () => { charted = [null]; showChart(); });
  byId("load").addEventListener("change", async (event) => {
    const file = event.target.files[0];
    if (file) await starts(await file.text(), true);
    event.target.value = "";
  });
  for (const name of Object.keys(EXAMPLES)) byId("examples").append(make("option", {}, name));
  byId("examples").addEventListener("change", (event) => {
    const whole = EXAMPLES[event.target.value];
    if (whole !== undefined) starts(whole, true);
    event.target.value = "";
  });
  addEventListener("hashchange", () => {
    if (fromAddress() !== lines.map((it) => `${it}\n`).join("")) starts(fromAddress(), true);
  });
  addEventListener("resize", showScene);
  addEventListener("keydown", (event) => {
    if (event.target.closest("input, textarea, select") || event.ctrlKey || event.metaKey) return;
    if (event.key === "," && !byId("back").disabled) byId("back").click();
    else if (event.key === "." && !byId("forth").disabled) byId("forth").click();
  });
}

async function begin() {
  makeStations();
  listen();
  await starts(fromAddress(), true);
}

begin();
</script>
</body>
</html>
"##;
