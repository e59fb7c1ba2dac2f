//! The page of the console: everything in it, so that it works without a network.

/// What the page may do, as `Content-Security-Policy`: its own style and script run, by their
/// checksums (SHA-256 of what stands between their tags), and it asks nobody but the console.
pub const POLICY: &str = "default-src 'none'; connect-src 'self'; img-src data:; \
    style-src 'sha256-qwU1T5+gkuc2Ak4cu5RWFZ3IRbRCVxYQ9wSnV8Nm0+o='; \
    script-src 'sha256-7OwAPTrPlruDhnbm2vtt8G55p7rEfr4GmWRj/ZEr5eg='; \
    base-uri 'none'; form-action 'none'; frame-ancestors 'none'";

/// The page, in HTML.
pub const PAGE: &str = r##"<!doctype html>
<html lang="en">
<head>
<meta charset="utf-8">
<meta name="viewport" content="width=device-width, initial-scale=1">
<meta name="color-scheme" content="light dark">
<title>Station</title>
<link rel="icon" href="data:,">
<style>
:root {
  color-scheme: light dark;
  --back: #f3f5f8; --card: #ffffff; --line: #d5dbe4; --text: #16202c; --dim: #52606f;
  --blue: #1558b0; --green: #12703a; --amber: #8a5300; --red: #b3261e; --track: #e3e8ef;
  --on: #ffffff; --sent: #1558b0; --came: #12703a; --lost: #b3261e;
}
@media (prefers-color-scheme: dark) {
  :root:not([data-form="light"]) {
    --back: #0d131b; --card: #151e29; --line: #2a3746; --text: #e6edf5; --dim: #9fb0c2;
    --blue: #7cb5ff; --green: #6fd394; --amber: #f2b65a; --red: #ff8e86; --track: #253242;
    --on: #08111c; --sent: #7cb5ff; --came: #6fd394; --lost: #ff8e86;
  }
}
:root[data-form="dark"] {
  color-scheme: dark;
  --back: #0d131b; --card: #151e29; --line: #2a3746; --text: #e6edf5; --dim: #9fb0c2;
  --blue: #7cb5ff; --green: #6fd394; --amber: #f2b65a; --red: #ff8e86; --track: #253242;
  --on: #08111c; --sent: #7cb5ff; --came: #6fd394; --lost: #ff8e86;
}
:root[data-form="light"] { color-scheme: light; }
* { box-sizing: border-box; }
html { -webkit-text-size-adjust: 100%; }
body {
  margin: 0; background: var(--back); color: var(--text);
  font: 15px/1.45 system-ui, -apple-system, "Segoe UI", Roboto, "Noto Sans", sans-serif;
}
h1, h2, p, ul, ol, dl, dd, figure { margin: 0; padding: 0; }
ul, ol { list-style: none; }
h1 { font-size: 1.15rem; font-weight: 650; letter-spacing: -0.01em; }
h2 { font-size: 0.95rem; font-weight: 650; }
a.skip { position: absolute; left: -999px; }
a.skip:focus { left: 1rem; top: 0.5rem; z-index: 9; background: var(--card);
  padding: 0.4rem 0.8rem; }
:focus-visible { outline: 3px solid var(--blue); outline-offset: 2px; border-radius: 6px; }
header {
  position: sticky; top: 0; z-index: 2; display: flex; flex-wrap: wrap; gap: 0.6rem 1rem;
  align-items: center; padding: 0.7rem 1.1rem; background: var(--card);
  border-bottom: 1px solid var(--line);
}
header .fill { flex: 1; }
#notes { border-color: var(--amber); padding: 0.6rem 1rem; }
#notes li::before { content: "\26A0  "; color: var(--amber); }
#notes li.bad::before { color: var(--red); }
main {
  display: grid; gap: 1rem; padding: 1rem 1.1rem 2rem; max-width: 84rem; margin: 0 auto;
  grid-template-columns: minmax(0, 1.7fr) minmax(17rem, 1fr);
}
main > section { min-width: 0; }
.wide { grid-column: 1 / -1; }
section { background: var(--card); border: 1px solid var(--line); border-radius: 10px; }
section > .head {
  display: flex; flex-wrap: wrap; gap: 0.4rem 0.8rem; align-items: baseline;
  padding: 0.75rem 1rem 0.4rem;
}
section > .head .dim { margin-left: auto; }
.dim { color: var(--dim); }
.num { font-variant-numeric: tabular-nums; }
.pill {
  display: inline-flex; align-items: center; gap: 0.45rem; font-weight: 600; font-size: 0.86rem;
  border: 1px solid currentColor; border-radius: 99px; padding: 0.1rem 0.7rem 0.1rem 0.55rem;
}
.pill::before { content: ""; width: 0.6rem; height: 0.6rem; border-radius: 50%;
  background: currentColor; }
.is-up { color: var(--green); } .is-frozen { color: var(--blue); }
.is-silent { color: var(--amber); } .is-gone { color: var(--red); }
button, input { font: inherit; color: inherit; }
button {
  background: var(--card); border: 1px solid var(--line); border-radius: 7px; cursor: pointer;
  min-height: 2.1rem; padding: 0.2rem 0.8rem;
}
button:hover { border-color: var(--blue); }
button:disabled { opacity: 0.55; cursor: default; }
button.main { background: var(--blue); border-color: var(--blue); color: var(--on);
  font-weight: 600; }
button.small { min-height: 1.9rem; padding: 0 0.6rem; font-size: 0.86rem; }
button.harm { color: var(--red); }
input[type="text"], input[type="password"], input[type="search"] {
  background: var(--back); border: 1px solid var(--dim); border-radius: 7px;
  min-height: 2.1rem; padding: 0.2rem 0.6rem; width: 100%; min-width: 0;
}
.figures { display: grid; grid-template-columns: repeat(4, minmax(0, 1fr)); gap: 1px;
  background: var(--line); border-top: 1px solid var(--line); border-radius: 0 0 10px 10px;
  overflow: hidden; }
.figures > div { background: var(--card); padding: 0.55rem 0.9rem 0.65rem; }
.figures dt { color: var(--dim); font-size: 0.82rem; }
.figures dd { font-size: 1.3rem; font-weight: 600; font-variant-numeric: tabular-nums; }
.figures dd.bad { color: var(--red); }
.figures dd.rate { color: var(--dim); font-size: 0.82rem; font-weight: 400; }
figure { padding: 0 1rem 0.6rem; }
canvas { display: block; width: 100%; height: 11.5rem; }
figcaption { display: flex; flex-wrap: wrap; gap: 0.2rem 1.1rem; font-size: 0.86rem;
  padding-top: 0.3rem; }
.key::before { content: ""; display: inline-block; width: 1rem; height: 0; vertical-align: 0.28em;
  margin-right: 0.4rem; border-top: 3px solid currentColor; }
.key.sent { color: var(--sent); } .key.came { color: var(--came); }
.key.lost { color: var(--lost); } .key.lost::before { border-top-style: dashed; }
form.put { display: grid; gap: 0.55rem; padding: 0.2rem 1rem 1rem; }
form.put label.line { display: grid; gap: 0.15rem; font-size: 0.86rem; color: var(--dim); }
form.put .row { display: flex; flex-wrap: wrap; gap: 0.6rem; align-items: center; }
form.put .row .main { margin-left: auto; }
.rows { border-top: 1px solid var(--line); }
.rows > li { padding: 0.6rem 1rem; border-bottom: 1px solid var(--line); }
.rows > li:last-child { border-bottom: 0; }
.top { display: flex; flex-wrap: wrap; gap: 0.15rem 0.8rem; align-items: baseline; }
.name { font-weight: 600; overflow-wrap: anywhere; }
.bar { display: flex; gap: 0.7rem; align-items: center; margin-top: 0.3rem; }
progress { flex: 1; appearance: none; height: 0.6rem; border: 0; border-radius: 99px;
  background: var(--track); overflow: hidden; min-width: 4rem; }
progress::-webkit-progress-bar { background: var(--track); border-radius: 99px; }
progress::-webkit-progress-value { background: var(--blue); border-radius: 99px;
  transition: width 0.6s linear; }
progress::-moz-progress-bar { background: var(--blue); }
li.receives progress::-webkit-progress-value { background: var(--green); }
li.receives progress::-moz-progress-bar { background: var(--green); }
li.suspended progress::-webkit-progress-value { background: var(--amber); }
li.suspended progress::-moz-progress-bar { background: var(--amber); }
.share { min-width: 3.4rem; text-align: right; }
.size { min-width: 14rem; text-align: right; }
.acts { display: flex; gap: 0.4rem; margin-left: auto; }
.none { padding: 0.7rem 1rem 1rem; color: var(--dim); }
main.one > section:not(#one, #notes, #ask) { display: none; }
#one h3 { font-size: 0.9rem; font-weight: 650; margin: 0; padding: 0.9rem 1rem 0.3rem; }
#one .figures { border-radius: 0; border-bottom: 1px solid var(--line); }
#one .figures dd { font-size: 0.95rem; overflow-wrap: anywhere; }
#one p { padding: 0.1rem 1rem; overflow-wrap: anywhere; }
#parts { display: block; width: calc(100% - 2rem); height: 1.4rem; margin: 0 1rem 0.4rem;
  border-radius: 5px; background: var(--track); }
#parts .held { fill: var(--green); } #parts .sent { fill: var(--blue); }
#parts .missing { fill: var(--red); } #parts .more { fill: var(--dim); }
#one .scroll { max-height: none; border-top: 0; }
a { color: var(--blue); }
.scroll { max-height: 24rem; overflow: auto; border-top: 1px solid var(--line); }
table { width: 100%; border-collapse: collapse; font-size: 0.9rem; }
th, td { text-align: left; padding: 0.32rem 1rem; border-bottom: 1px solid var(--line);
  vertical-align: top; }
th { position: sticky; top: 0; background: var(--card); color: var(--dim); font-weight: 600;
  font-size: 0.82rem; }
td.num, th.num { text-align: right; white-space: nowrap; }
tr:last-child td { border-bottom: 0; }
td.file { overflow-wrap: anywhere; min-width: 8rem; }
td.time { white-space: nowrap; font-variant-numeric: tabular-nums; }
.good { color: var(--green); font-weight: 600; } .bad { color: var(--red); font-weight: 600; }
#lines { font: 12.5px/1.5 ui-monospace, "SF Mono", Menlo, Consolas, "DejaVu Sans Mono", monospace;
  padding: 0.5rem 1rem; }
#lines li { white-space: pre-wrap; overflow-wrap: anywhere; }
#lines li.bad { color: var(--red); font-weight: 400; }
.tools { display: flex; gap: 0.6rem; align-items: center; margin-left: auto; white-space: nowrap; }
.tools input { max-width: 14rem; }
#said { position: fixed; left: 50%; bottom: 1rem; transform: translateX(-50%); z-index: 3;
  max-width: min(40rem, 92vw); background: var(--text); color: var(--back); border-radius: 8px;
  padding: 0.5rem 1rem; box-shadow: 0 4px 18px #0006; }
#said:empty { display: none; }
#ask { display: none; padding: 0.8rem 1rem 1rem; }
#ask.shown { display: grid; gap: 0.6rem; max-width: 30rem; }
@media (max-width: 52rem) {
  main { grid-template-columns: minmax(0, 1fr); padding: 0.7rem 0.7rem 2rem; gap: 0.7rem; }
  header { padding: 0.6rem 0.8rem; }
  th, td { padding: 0.32rem 0.7rem; }
  .acts { margin-left: 0; width: 100%; }
  .acts button { flex: 1; min-height: 2.4rem; }
  .many { display: none; }
  #one th, #one td { padding: 0.32rem 0.4rem; white-space: normal; }
  .figures { grid-template-columns: repeat(2, minmax(0, 1fr)); }
  #closed-box thead { position: absolute; left: -9999px; }
  #closed-box tr { display: flex; flex-wrap: wrap; gap: 0 0.8rem; padding: 0.4rem 0.9rem;
    border-bottom: 1px solid var(--line); }
  #closed-box tr[hidden] { display: none; }
  #closed-box td { border: 0; padding: 0; }
  #closed-box td.file { flex: 1 0 100%; order: -1; font-weight: 600; }
  .bar { flex-wrap: wrap; gap: 0.15rem 0.7rem; }
  progress { flex: 1 0 100%; }
  .size { flex: 1; }
  .share { min-width: 0; }
}
@media (prefers-reduced-motion: reduce) { progress::-webkit-progress-value { transition: none; } }
</style>
</head>
<body>
<a class="skip" href="#work">To the transactions</a>
<header>
  <h1 id="title">Station</h1>
  <span id="state" class="pill is-gone" role="status">connecting</span>
  <span id="heard" class="dim"></span>
  <span class="fill"></span>
  <span id="clock" class="dim num"></span>
  <button id="freeze" type="button" title="Key: f">Freeze the link</button>
  <button id="form" type="button" aria-label="Light or dark" title="Key: d">&#9680;</button>
</header>
<main>
  <section class="wide" id="ask" aria-labelledby="ask-title">
    <h2 id="ask-title">Token required</h2>
    <form id="ask-form" class="row">
      <label>Token
        <input id="token" type="password" autocomplete="current-password"></label>
      <button class="main">Continue</button>
    </form>
  </section>
  <section class="wide" id="notes" role="alert" aria-label="Notes that hold" hidden>
    <ul id="held"></ul>
  </section>
  <section class="wide" id="one" tabindex="-1" aria-labelledby="one-title" hidden>
    <div class="head"><h2 id="one-title">Transaction</h2>
      <span class="tools"><a id="one-back" href="#">All transactions</a></span></div>
    <p id="one-none" class="none" hidden>This transaction isn't open, and isn't one of the last 200
      closed ones.</p>
    <div id="one-body">
      <dl class="figures" id="one-facts"></dl>
      <h3 id="parts-title">What of the file is here</h3>
      <svg id="parts" role="img" viewBox="0 0 1000 10" preserveAspectRatio="none"
        aria-labelledby="parts-title"></svg>
      <p id="one-held" class="num"></p>
      <p id="one-missing" class="num"></p>
      <h3>Timers</h3>
      <p id="no-timers" class="none">None: it is over.</p>
      <table id="timers" hidden>
        <thead><tr><th scope="col">Waits for</th><th scope="col" class="num">Expires in</th>
          <th scope="col" class="num">Sent</th><th scope="col" class="num">Again at most</th></tr>
        </thead>
        <tbody></tbody>
      </table>
      <h3 id="rounds-title">Rounds of NAKs</h3>
      <p id="no-rounds" class="none">No NAK yet.</p>
      <div class="scroll" tabindex="0" role="region" aria-labelledby="rounds-title"
        id="rounds-box" hidden>
        <table id="rounds">
          <thead><tr><th scope="col" class="num">Round</th><th scope="col">Time</th>
            <th scope="col" class="num many">NAKs</th><th scope="col" class="num many">Octets</th>
            <th scope="col" class="num many">Ranges</th><th scope="col">Requested</th></tr></thead>
          <tbody></tbody>
        </table>
      </div>
    </div>
  </section>
  <section aria-labelledby="link-title">
    <div class="head"><h2 id="link-title">Link</h2><span id="route" class="dim"></span></div>
    <figure>
      <canvas id="plot" role="img" aria-label="Frames per second in the last ten minutes"></canvas>
      <figcaption>
        <span class="key sent">sent per second</span>
        <span class="key came">received per second</span>
        <span class="key lost">lost per second</span><span class="dim">last ten minutes</span>
      </figcaption>
    </figure>
    <dl class="figures">
      <div><dt>sent</dt><dd id="f-sent">-</dd><dd id="r-sent" class="rate"></dd></div>
      <div><dt>received</dt><dd id="f-came">-</dd><dd id="r-came" class="rate"></dd></div>
      <div><dt>lost</dt><dd id="f-lost">-</dd><dd id="r-lost" class="rate"></dd></div>
      <div><dt>dropped here</dt><dd id="f-dropped">-</dd></div>
      <div><dt>resent</dt><dd id="f-again">-</dd></div>
      <div><dt>files sent</dt><dd id="f-files-sent">-</dd></div>
      <div><dt>files received</dt><dd id="f-files-came">-</dd></div>
      <div><dt>sends failed</dt><dd id="f-sends-failed">-</dd></div>
      <div><dt>receptions failed</dt><dd id="f-failed">-</dd></div>
      <div><dt>cancelled</dt><dd id="f-cancelled">-</dd></div>
      <div><dt>puts refused</dt><dd id="f-refused">-</dd></div>
      <div><dt>control field</dt><dd id="f-control">-</dd></div>
    </dl>
  </section>
  <section aria-labelledby="put-title">
    <div class="head"><h2 id="put-title">Send a file</h2></div>
    <form id="put" class="put">
      <label class="line">File name in the outbox
        <input id="source" type="text" required autocapitalize="off" autocomplete="off"
          spellcheck="false" title="Key: p" list="files"></label>
      <datalist id="files"></datalist>
      <label class="line">Destination name (optional)
        <input id="destination" type="text" autocapitalize="off" autocomplete="off"
          spellcheck="false"></label>
      <div class="row">
        <label><input id="first" type="checkbox"> Send first</label>
        <button class="main">Send</button>
      </div>
    </form>
    <div class="head"><h2>Failed transactions, by condition</h2></div>
    <p id="no-fails" class="none">None failed.</p>
    <table id="fails" hidden>
      <thead><tr><th scope="col">Condition</th><th scope="col" class="num">Count</th></tr></thead>
      <tbody></tbody>
    </table>
    <div class="head"><h2>Dropped data, by cause</h2></div>
    <p id="no-drops" class="none">None dropped.</p>
    <table id="drops" hidden>
      <thead><tr><th scope="col">Cause</th><th scope="col" class="num">Count</th></tr></thead>
      <tbody></tbody>
    </table>
  </section>
  <section class="wide" id="work" tabindex="-1" aria-labelledby="open-title">
    <div class="head"><h2 id="open-title">Open transactions</h2>
      <span id="open-count"></span>
      <span class="tools"><label for="files-filter" class="dim">Filter</label>
        <input id="files-filter" type="search" title="Key: t"></span></div>
    <p id="no-open" class="none">No open transactions.</p>
    <ul id="open" class="rows" hidden></ul>
  </section>
  <section class="wide" aria-labelledby="closed-title">
    <div class="head"><h2 id="closed-title">Closed transactions</h2>
      <span class="dim">last 200</span></div>
    <p id="no-closed" class="none">No closed transactions yet.</p>
    <div class="scroll" tabindex="0" role="region" aria-labelledby="closed-title"
      id="closed-box" hidden>
      <table>
        <thead><tr><th scope="col">Time</th><th scope="col" class="num many">Took</th>
          <th scope="col">Id</th><th scope="col">File</th>
          <th scope="col" class="num many">Octets</th><th scope="col">Outcome</th>
          <th scope="col" class="why">Why</th></tr></thead>
        <tbody id="closed"></tbody>
      </table>
    </div>
  </section>
  <section class="wide" aria-labelledby="log-title">
    <div class="head"><h2 id="log-title">Log</h2>
      <span class="tools"><label for="filter" class="dim">Filter</label>
        <input id="filter" type="search" title="Key: /"></span></div>
    <div class="scroll" tabindex="0" role="region" aria-labelledby="log-title" id="log-box">
      <ol id="lines"></ol>
    </div>
  </section>
</main>
<p id="said" role="alert"></p>
<script>
"use strict";
// Names and lines of the log come from outside: they are put in as text, and never as markup.
const at = (id) => document.getElementById(id);
const SPAN = 600, CLOSED = 200, LINES = 1000;
// What in a line tells of a fault, an incomplete file or a put that was refused.
const BAD = new RegExp("(^| )(fault|abandoned|incomplete|failed:|change|error|line [0-9]+) "
  + '|"event":"(fault|abandoned|put|change|error)"|:"(failed|incomplete)"');
const INFORMS = ["authentication", "console", "control", "listening"];
const CANCELLED = 15, STALE = 3000, PACE = 10, SURE = 4000;
let token = null, status = null, before = null, samples = [], shownClosed = 0, shownLine = 0;
let answeredAt = 0, rates = new Map();
let isAsking = false, isRenewing = false, isWanted = false, isAnew = false, quiet = 0;

function made(tag, text, className) {
  const it = document.createElement(tag);
  if (text !== undefined) it.textContent = text;
  if (className) it.className = className;
  return it;
}
function writes(it, text) { if (it.textContent !== text) it.textContent = text; }
function grouped(number) {
  return number === null || number === undefined ? "-" : number.toLocaleString("en-US");
}
function says(text) {
  writes(at("said"), text);
  clearTimeout(quiet);
  if (text) quiet = setTimeout(() => writes(at("said"), ""), 6000);
}
function clock(time) { return time ? new Date(time).toISOString().slice(11, 19) : "-"; }

async function sends(path, method, body) {
  const headers = {};
  if (token) headers.authorization = "Bearer " + token;
  if (body) headers["content-type"] = "application/json";
  return fetch(path, { method: method || "GET", headers, cache: "no-store",
    body: body && JSON.stringify(body), signal: AbortSignal.timeout(8000) });
}
async function asks(path, method, body) {
  const answer = await sends(path, method, body);
  if (answer.status !== 401) return answer;
  // A station that was started anew tells its page another token, or its user has to show one.
  if (await takes_token()) return sends(path, method, body);
  shows_token(true);
  return answer;
}
async function takes_token() {
  const answer = await fetch("/token", { cache: "no-store" });
  if (!answer.ok) return false;
  const told = (await answer.json()).token;
  if (token !== null && token !== told) isAnew = true;
  token = told;
  return true;
}
async function does(path, what, body) {
  try {
    const answer = await asks(path, "POST", body);
    if (answer.ok) { says(what); return true; }
    const why = await answer.json().catch(() => ({}));
    says("Failed: " + (why.error || "status " + answer.status));
  } catch (error) { says("No answer from the station: " + error.message); }
  return false;
}
function shows_token(is_asked) {
  if (is_asked === isAsking) return;
  isAsking = is_asked;
  at("ask").classList.toggle("shown", is_asked);
  if (is_asked) at("token").focus();
}

// ---- the link
function shows_status() {
  const link = status.link;
  document.title = "Station " + status.station;
  writes(at("title"), "Station " + status.station + " \u2192 peer " + status.peer);
  const is_silent = link.silent !== null && link.silent >= 10;
  const state = link.state === "frozen" ? "frozen" : is_silent ? "silent" : "up";
  const is_noted = shows_notes();
  at("state").className = "pill is-" + (is_noted && state === "up" ? "silent" : state);
  writes(at("state"), state === "frozen" ? "frozen" : state === "silent"
    ? "link up, peer silent" : is_noted ? "link up, see the notes" : "link up");
  writes(at("heard"), link.silent === null ? "" : "last received " + link.silent + " s ago");
  writes(at("clock"), clock(status.time) + " UTC");
  writes(at("route"), link.carrier + " to " + link.to
    + (link.authenticated ? ", authenticated" : ", not authenticated"));
  writes(at("freeze"), state === "frozen" ? "Thaw the link" : "Freeze the link");
  const counters = status.counters;
  const figures = { "f-sent": link.sent, "f-came": link.received, "f-lost": link.missing,
    "f-again": counters.file_data_sent_again, "f-files-sent": counters.files_sent,
    "f-files-came": counters.files_received, "f-failed": failed("receives"),
    "f-sends-failed": failed("sends"), "f-cancelled": cancelled(),
    "f-refused": counters.puts_refused };
  for (const [id, number] of Object.entries(figures)) writes(at(id), grouped(number));
  let dropped = 0;
  for (const it of status.dropped) dropped += it.count;
  writes(at("f-dropped"), grouped(dropped));
  at("f-lost").className = link.missing ? "bad" : "";
  at("f-failed").className = failed("receives") ? "bad" : "";
  at("f-sends-failed").className = failed("sends") ? "bad" : "";
  at("f-refused").className = counters.puts_refused ? "bad" : "";
  writes(at("f-control"), link.control_field === null ? "none"
    : link.control_field.toString(16).toUpperCase().padStart(8, "0"));
  shows_rates();
  shows_counts("drops", status.dropped, (it) => it.layer + " " + it.number + " " + it.cause);
  const fails = status.failed.filter((it) => it.code !== CANCELLED);
  shows_counts("fails", fails, (it) => (it.way === "sends" ? "send " : "reception ")
    + it.code + " " + it.condition);
}
// How many transactions of one way failed: what a user cancelled didn't.
function failed(way) {
  let count = 0;
  for (const it of status.failed) if (it.way === way && it.code !== CANCELLED) count += it.count;
  return count;
}
function cancelled() {
  let count = 0;
  for (const it of status.failed) if (it.code === CANCELLED) count += it.count;
  return count;
}
// Shows the notes that hold, except what each start says.
function shows_notes() {
  const all = status.notes.filter((it) => it.holds && !INFORMS.includes(it.topic));
  const list = at("held");
  while (list.children.length > all.length) list.lastChild.remove();
  all.forEach((it, place) => {
    const line = list.children[place] || list.appendChild(made("li"));
    line.className = it.error ? "bad" : "";
    writes(line, it.text + " (" + grouped(it.count) + (it.count === 1 ? " time, " : " times, ")
      + it.age + " s ago)");
  });
  at("notes").hidden = all.length === 0;
  return all.length > 0;
}
function shows_rates() {
  const last = samples[samples.length - 1] || { sent: 0, came: 0, lost: 0 };
  for (const what of ["sent", "came", "lost"]) {
    writes(at("r-" + what), grouped(Math.round(last[what])) + " per second");
  }
  at("plot").setAttribute("aria-label", "Frames per second in the last ten minutes; now "
    + Math.round(last.sent) + " sent, " + Math.round(last.came) + " received, "
    + Math.round(last.lost) + " lost");
}
function shows_counts(id, all, words) {
  const body = at(id).tBodies[0];
  at(id).hidden = all.length === 0;
  at("no-" + id).hidden = all.length > 0;
  while (body.rows.length > all.length) body.deleteRow(-1);
  all.forEach((it, place) => {
    let row = body.rows[place];
    if (!row) {
      row = body.insertRow();
      row.append(made("td", "", "file"), made("td", "", "num"));
    }
    writes(row.cells[0], words(it));
    writes(row.cells[1], grouped(it.count));
  });
}
function notes_sample() {
  const link = status.link, now = status.seconds;
  if (before && now > before.seconds) {
    const span = now - before.seconds, was = before.link;
    const each = { sent: (link.sent - was.sent) / span, came: (link.received - was.received) / span,
      lost: (link.missing - was.missing) / span };
    for (let second = before.seconds + 1; second <= now; second++) {
      samples.push({ second, ...each });
    }
    while (samples.length > SPAN) samples.shift();
  }
  if (!before || now !== before.seconds) before = status;
}
// Whether another run of the station answers than before: it told another token, has counted less,
// or began at another time.
function is_anew() {
  const began = (it) => it.time - it.seconds * 1000;
  return before !== null && (isAnew || status.seconds < before.seconds
    || status.closed < shownClosed || status.lines < shownLine
    || Math.abs(began(status) - began(before)) > 5000);
}
async function starts_anew() {
  shownClosed = 0; shownLine = 0; before = null; isAnew = false;
  at("closed").replaceChildren(); at("lines").replaceChildren();
  await takes_history();
}
function draws() {
  const canvas = at("plot"), scale = window.devicePixelRatio || 1;
  const width = canvas.clientWidth, height = canvas.clientHeight;
  if (!width) return;
  if (canvas.width !== Math.round(width * scale)) canvas.width = Math.round(width * scale);
  if (canvas.height !== Math.round(height * scale)) canvas.height = Math.round(height * scale);
  const pen = canvas.getContext("2d"), style = getComputedStyle(document.documentElement);
  const color = (name) => style.getPropertyValue(name).trim();
  pen.setTransform(scale, 0, 0, scale, 0, 0);
  pen.clearRect(0, 0, width, height);
  const left = 44, right = width - 6, top = 8, bottom = height - 20;
  let most = 4;
  for (const it of samples) most = Math.max(most, it.sent, it.came, it.lost);
  const power = 10 ** Math.floor(Math.log10(most));
  const step = [1, 2, 5, 10].map((it) => it * power / 2).find((it) => most / it <= 5) || power * 5;
  const end = status ? status.seconds : SPAN;
  const x = (second) => right - (end - second) / SPAN * (right - left);
  const y = (count) => bottom - count / (Math.ceil(most / step) * step) * (bottom - top);
  pen.font = "11px system-ui, sans-serif"; pen.lineWidth = 1;
  pen.fillStyle = color("--dim"); pen.strokeStyle = color("--line");
  pen.textAlign = "right"; pen.textBaseline = "middle";
  for (let count = 0; count <= Math.ceil(most / step) * step + step / 9; count += step) {
    pen.beginPath(); pen.moveTo(left, y(count)); pen.lineTo(right, y(count)); pen.stroke();
    pen.fillText(grouped(Math.round(count * 10) / 10), left - 6, y(count));
  }
  pen.textAlign = "center"; pen.textBaseline = "top";
  for (let minute = 0; minute <= 10; minute += width < 480 ? 5 : 2) {
    const place = x(end - minute * 60);
    pen.textAlign = minute === 0 ? "right" : minute === 10 ? "left" : "center";
    pen.fillText(minute === 0 ? "now" : "-" + minute + " min", place, bottom + 5);
  }
  for (const [what, width, dash] of [["came", 1.8, []], ["sent", 1.8, []], ["lost", 1.8, [4, 3]]]) {
    pen.strokeStyle = color("--" + what); pen.lineWidth = width; pen.setLineDash(dash);
    pen.beginPath();
    let last = null;
    for (const it of samples) {
      if (it.second <= end - SPAN) continue;
      if (last === null || it.second > last + 1) pen.moveTo(x(it.second), y(it[what]));
      else pen.lineTo(x(it.second), y(it[what]));
      last = it.second;
    }
    pen.stroke();
  }
  pen.setLineDash([]);
}

// ---- transactions
// The address of the page of a transaction.
function link_to(id) {
  const link = made("a", id, "num");
  link.href = "#" + id;
  link.setAttribute("aria-label", "Details of " + id);
  return link;
}
function id_cell(id) {
  const cell = made("td", undefined, "time");
  cell.append(link_to(id));
  return cell;
}
function open_row(it) {
  const row = made("li");
  row.dataset.id = it.id;
  const top = made("div", undefined, "top");
  top.append(link_to(it.id), made("span", "", "name"), made("span", "", "dim way"),
    made("span", "", "waits"));
  const acts = made("div", undefined, "acts");
  const hold = made("button", "", "small hold"), cancel = made("button", "Cancel", "small harm");
  hold.type = cancel.type = "button";
  hold.addEventListener("click", () => {
    const word = row.classList.contains("suspended") ? "resume" : "suspend";
    does("/transactions/" + it.id + "/" + word, it.id + ": " + word + " done").then(renews);
  });
  cancel.addEventListener("click", () => {
    if (row.dataset.sure) {
      does("/transactions/" + it.id + "/cancel", it.id + ": cancel done").then(renews);
      return;
    }
    // What was transferred is lost: a second click, within some seconds, does it.
    row.dataset.sure = "yes";
    setTimeout(() => { delete row.dataset.sure; names_cancel(row); }, SURE);
    names_cancel(row);
  });
  acts.append(hold, cancel);
  top.append(acts);
  const bar = made("div", undefined, "bar"), progress = made("progress");
  bar.append(progress, made("span", "", "share num"), made("span", "", "dim num size"));
  row.append(top, bar);
  return row;
}
function names_cancel(row) {
  const cancel = row.querySelector(".harm"), it = row.dataset;
  writes(cancel, it.sure ? "Really?" : "Cancel");
  cancel.setAttribute("aria-label", (it.sure ? "Really cancel " : "Cancel ") + it.id + ", "
    + it.name);
}
function shows_open(all) {
  const list = at("open"), rows = new Map();
  for (const row of list.children) rows.set(row.dataset.id, row);
  let place = null;
  for (const it of all) {
    let row = rows.get(it.id);
    rows.delete(it.id);
    if (!row) {
      row = open_row(it);
      list.insertBefore(row, place ? place.nextSibling : list.firstChild);
    }
    place = row;
    fills_row(row, it);
  }
  for (const [id, row] of rows) { row.remove(); rates.delete(id); }
  filters_files();
  list.hidden = all.length === 0;
  at("no-open").hidden = all.length > 0;
  const shown = all.length < status.open ? ", " + all.length + " shown" : "";
  writes(at("open-count"), grouped(status.open) + " open" + shown + "; "
    + grouped(status.waiting) + " files waiting");
}
function fills_row(row, it) {
  const to = it.destination && it.destination !== it.source ? " \u2192 " + it.destination : "";
  const name = (it.source || "name not yet known") + to;
  row.className = it.way + (it.suspended ? " suspended" : "");
  writes(row.querySelector(".name"), name);
  writes(row.querySelector(".way"), it.phase + since(it));
  const deadline = it.deadline === null ? ""
    : "; the peer gives up in " + grouped(it.deadline) + " units of time";
  writes(row.querySelector(".waits"), it.waits_for ? "waits for " + it.waits_for + deadline : "");
  const hold = row.querySelector(".hold"), progress = row.querySelector("progress");
  writes(hold, it.suspended ? "Resume" : "Suspend");
  hold.setAttribute("aria-label", hold.textContent + " " + it.id + ", " + name);
  row.dataset.name = name;
  names_cancel(row);
  progress.setAttribute("aria-label", "Progress of " + it.id);
  const is_known = it.size !== null && it.octets !== null;
  if (is_known) {
    progress.max = Math.max(it.size, 1);
    progress.value = it.size === 0 ? 1 : it.octets;
    writes(row.querySelector(".share"), Math.floor(progress.value / progress.max * 100) + " %");
  } else {
    progress.removeAttribute("value");
    writes(row.querySelector(".share"), "-");
  }
  writes(row.querySelector(".size"), grouped(it.octets) + " of " + grouped(it.size)
    + (it.suspended ? "" : pace(it)));
}
// When a transaction began, and for how long it has been open.
function since(it) {
  return it.began ? ", since " + clock(it.began) + " (" + span_of(it.began, status.time) + ")" : "";
}
function span_of(from, to) {
  if (!from || !to) return "-";
  const all = Math.max(0, Math.round((to - from) / 1000)), hours = Math.floor(all / 3600);
  const two = (number) => String(number).padStart(2, "0");
  return hours + ":" + two(Math.floor(all / 60) % 60) + ":" + two(all % 60);
}
// How fast a file goes, by its last ten seconds, and how long it still takes.
function pace(it) {
  const past = rates.get(it.id) || [], now = status.seconds;
  if (it.octets === null) return "";
  if (past.length === 0 || now > past[past.length - 1].second) {
    past.push({ second: now, octets: it.octets });
  }
  while (past.length > PACE) past.shift();
  rates.set(it.id, past);
  const span = now - past[0].second, rate = span ? (it.octets - past[0].octets) / span : 0;
  if (rate <= 0) return "";
  const left = it.size === null ? "" : ", " + grouped(Math.ceil((it.size - it.octets) / rate))
    + " s left";
  return ", " + grouped(Math.round(rate)) + " octets/s" + left;
}
function adds_closed(all) {
  const body = at("closed");
  for (const it of all) {
    if (it.number <= shownClosed) continue;
    shownClosed = it.number;
    const to = it.destination && it.destination !== it.source ? " \u2192 " + it.destination : "";
    const row = made("tr");
    row.append(made("td", clock(it.time), "time"),
      made("td", span_of(it.began, it.time), "num many"), id_cell(it.id),
      made("td", (it.source || "-") + to, "file"), made("td", grouped(it.size), "num many"),
      made("td", outcome(it), it.complete ? "good" : is_cancelled(it) ? "" : "bad"),
      made("td", it.complete ? "" : it.condition + ": " + it.why, "why"));
    body.insertBefore(row, body.firstChild);
  }
  while (body.rows.length > CLOSED) body.deleteRow(-1);
  filters_files();
  at("closed-box").hidden = body.rows.length === 0;
  at("no-closed").hidden = body.rows.length > 0;
}

function is_cancelled(it) { return it.condition === "CANCEL_REQUEST_RECEIVED"; }
function outcome(it) {
  if (it.complete) return it.way === "sends" ? "sent" : "received";
  const way = it.way === "sends" ? "send " : "reception ";
  return way + (is_cancelled(it) ? "cancelled" : "failed");
}
function words_of(row) {
  const it = row.dataset;
  return it.id ? it.id + " " + it.name + " " + row.className : row.textContent;
}
// Hides each transaction in whose line the filter's text isn't.
function filters_files() {
  const wanted = at("files-filter").value.toLowerCase();
  for (const list of [at("open").children, at("closed").rows]) {
    for (const row of list) row.hidden = !words_of(row).toLowerCase().includes(wanted);
  }
}

// ---- one transaction
const WAITS = { "eof-ack": "ACK of its EOF", nak: "data requested by NAKs",
  "finished-ack": "ACK of its Finished", inactivity: "next PDU of the peer" };
function wanted_one() {
  const id = decodeURIComponent(location.hash.slice(1));
  return /^[0-9]+:[0-9]+$/.test(id) ? id : null;
}
// Shows the page of the transaction that the address names, or all of them.
function turns_page() {
  const id = wanted_one(), is_new = at("one").dataset.id !== (id || "");
  document.querySelector("main").classList.toggle("one", id !== null);
  at("one").hidden = id === null;
  at("one").dataset.id = id || "";
  if (!is_new) return;
  for (const name of ["timers", "rounds"]) at(name).tBodies[0].replaceChildren();
  writes(at("one-title"), "Transaction " + (id || ""));
  at("one-body").hidden = true;
  at("one-none").hidden = true;
  if (id) { at("one").focus(); renews(); } else draws();
}
async function takes_one() {
  const id = wanted_one();
  if (!id) return;
  const answer = await asks("/transactions/" + id + "/details");
  if (id !== wanted_one()) return;
  at("one-none").hidden = answer.status !== 404;
  at("one-body").hidden = !answer.ok;
  if (answer.ok) shows_one(await answer.json());
}
function shows_one(it) {
  const of = it.transaction, is_open = of.phase !== undefined;
  const to = of.destination && of.destination !== of.source ? " \u2192 " + of.destination : "";
  writes(at("one-title"), "Transaction " + of.id + ": " + (of.source || "name not yet known") + to);
  shows_facts(facts_of(it, of, is_open));
  shows_parts(it, of, is_open);
  shows_rows("timers", it.timers || [], (row) => [WAITS[row.timer],
    row.left === null ? "not armed" : grouped(row.left) + (row.left === 1 ? " unit" : " units"),
    grouped(row.sent), grouped(row.limit)], ["", "num", "num", "num"]);
  at("timers").hidden = !(it.timers || []).length;
  at("no-timers").hidden = !at("timers").hidden;
  const rounds = it.rounds ? it.rounds.last.slice().reverse() : [];
  shows_rows("rounds", rounds, (row) => [grouped(row.number), clock(row.time), grouped(row.naks),
    grouped(row.asked.octets), grouped(row.asked.count),
    (row.metadata ? "Metadata " : "") + ranges_text(row.asked)],
    ["num", "", "num many", "num many", "num many", ""]);
  at("rounds-box").hidden = rounds.length === 0;
  at("no-rounds").hidden = rounds.length > 0;
}
function facts_of(it, of, is_open) {
  const again = it.sent_again, rounds = it.rounds;
  const state = is_open ? of.phase + (of.suspended ? ", suspended" : "") : outcome(of);
  return [["direction", of.way === "sends" ? "from here to the peer" : "from the peer to here"],
    ["state", state + (is_open || of.complete ? "" : ", " + of.condition + ": " + of.why)],
    ["began", clock(of.began)],
    [is_open ? "open for" : "took", span_of(of.began, is_open ? status.time : of.time)],
    ["octets of the file", grouped(of.size)],
    [of.way === "sends" ? "sent up to" : "received up to", is_open ? grouped(of.octets) : "-"],
    ["rounds of NAKs", rounds ? grouped(rounds.count) + ", NAKs " + grouped(rounds.naks) : "-"],
    ["sent again", of.way === "sends" && again
      ? grouped(again.octets) + " octets, " + grouped(again.pdus) + " PDUs" : "-"]];
}
function shows_facts(all) {
  const list = at("one-facts");
  all.forEach(([name, text], place) => {
    const box = list.children[place] || list.appendChild(made("div"));
    if (!box.children.length) box.append(made("dt"), made("dd"));
    writes(box.children[0], name);
    writes(box.children[1], text);
  });
}
// Ranges in words: the end of each isn't in it.
function ranges_text(ranges) {
  const more = ranges.count > ranges.ranges.length ? " .." : "";
  return ranges.ranges.map(([from, end]) => from + "-" + end).join(" ") + more;
}
function summary(word, ranges) {
  const most = ranges.ranges.length;
  const first = ranges.count > most ? ", the first " + most : "";
  return word + ": " + grouped(ranges.octets) + " octets in " + grouped(ranges.count)
    + (ranges.count === 1 ? " range" : " ranges") + first
    + (ranges.count ? ": " + ranges_text(ranges) : "");
}
// The bar: what is held and missing, or what was sent and what the peer requested last.
function shows_parts(it, of, is_open) {
  const last = it.rounds && it.rounds.last[it.rounds.last.length - 1];
  const is_held = it.held !== null && it.held !== undefined;
  const asked = of.way === "sends" && is_open && last ? last.asked : null;
  const missing = is_held ? it.missing : asked;
  const held = is_held ? it.held.ranges : is_open && of.octets ? [[0, of.octets]]
    : of.complete ? [[0, of.size]] : [];
  const end = Math.max(1, of.size || 0, ...held.map((one) => one[1]));
  const kind = of.way === "sends" ? "sent" : "held";
  const bar = at("parts"), rects = [...held.map((one) => [kind, one]),
    ...(missing ? missing.ranges : []).map((one) => ["missing", one]),
    ...(is_held ? beyond(it, of.octets) : []).map((one) => ["more", one])];
  bar.replaceChildren(...rects.map(([name, [from, to]]) => {
    const rect = document.createElementNS("http://www.w3.org/2000/svg", "rect");
    for (const [key, value] of Object.entries({ class: name, x: from / end * 1000,
      width: Math.max(1, (to - from) / end * 1000), height: 10 })) rect.setAttribute(key, value);
    return rect;
  }));
  writes(at("parts-title"), of.way === "sends" ? "What of the file was sent, and requested again"
    : "What of the file is here, and what is missing");
  writes(at("one-held"), is_held ? summary("held", it.held) : "");
  writes(at("one-missing"), missing ? summary(is_held ? "missing" : "requested last", missing)
    + (it.lacks_metadata ? "; Metadata" : "") : "");
}
// What lies behind the ranges that are told: held or missing, which isn't known.
function beyond(it, octets) {
  const last = (ranges) => ranges.count > ranges.ranges.length
    ? ranges.ranges[ranges.ranges.length - 1][1] : octets;
  const from = Math.min(last(it.held), last(it.missing));
  return from < octets ? [[from, octets]] : [];
}
// Fills a table in place, so that what its user looks at stays.
function shows_rows(id, all, cells, kinds) {
  const body = at(id).tBodies[0];
  while (body.rows.length > all.length) body.deleteRow(-1);
  all.forEach((it, place) => {
    const row = body.rows[place] || body.insertRow();
    cells(it).forEach((text, column) => {
      const cell = row.cells[column] || row.insertCell();
      cell.className = kinds[column];
      writes(cell, text);
    });
  });
}

// ---- the log
function fits(text) { return text.toLowerCase().includes(at("filter").value.toLowerCase()); }
function adds_lines(all) {
  const box = at("log-box"), list = at("lines");
  const is_at_end = box.scrollTop + box.clientHeight >= box.scrollHeight - 8;
  for (const it of all) {
    if (it.number <= shownLine) continue;
    shownLine = it.number;
    const is_bad = BAD.test(it.text);
    const line = made("li", it.text, is_bad ? "bad" : "");
    line.hidden = !fits(it.text);
    list.append(line);
  }
  while (list.children.length > LINES) list.firstChild.remove();
  if (is_at_end) box.scrollTop = box.scrollHeight;
}

// ---- each second
async function renews() {
  isWanted = true;
  if (isRenewing) return;
  isRenewing = true;
  while (isWanted) { isWanted = false; await takes_all(); }
  isRenewing = false;
}
async function takes_all() {
  try {
    const answer = await asks("/status");
    if (!answer.ok) throw new Error("status " + answer.status);
    status = await answer.json();
    answeredAt = performance.now();
    shows_token(false);
    if (is_anew()) await starts_anew();
    notes_sample();
    shows_status();
    const both = await Promise.all([asks("/transactions?after=" + shownClosed),
      asks("/log?after=" + shownLine)]);
    const [transactions, log] = await Promise.all(both.map((it) => it.json()));
    shows_open(transactions.open);
    adds_closed(transactions.closed);
    adds_lines(log.lines);
    await takes_one();
    // An answer has not all lines at once: the rest is asked for soon.
    if (shownClosed < status.closed || shownLine < status.lines) setTimeout(renews, 100);
  } catch (error) {
    at("state").className = "pill is-gone";
    writes(at("state"), isAsking ? "token required" : "no answer");
    writes(at("heard"), "");
  }
  draws();
}
// What was shown last is no longer so: the station hasn't answered for three seconds.
function looks_at_age() {
  if (!status || isAsking || performance.now() - answeredAt < STALE) return;
  at("state").className = "pill is-gone";
  writes(at("state"), "no answer");
  writes(at("heard"), "");
}
async function begins() {
  try { await takes_token(); }
  catch (error) { says("No answer from the station: " + error.message); }
  await takes_history();
  await renews();
  setInterval(renews, 1000);
  setInterval(looks_at_age, 500);
}
async function takes_history() {
  try {
    const answer = await asks("/history");
    if (!answer.ok) return;
    const past = await answer.json(), count = past.sent.length;
    samples = past.sent.map((sent, place) => ({ second: past.seconds - count + 1 + place, sent,
      came: past.received[place], lost: past.lost[place] }));
  } catch (error) { samples = []; }
}

// ---- what the user does
async function lists_files() {
  try {
    const answer = await asks("/files");
    if (!answer.ok) return;
    const names = (await answer.json()).files;
    at("files").replaceChildren(...names.map((name) => {
      const it = made("option");
      it.value = name;
      return it;
    }));
  } catch (error) { /* none is offered then */ }
}
at("source").addEventListener("focus", lists_files);
at("files-filter").addEventListener("input", filters_files);
at("put").addEventListener("submit", async (event) => {
  event.preventDefault();
  const source = at("source").value.trim(), destination = at("destination").value.trim();
  const body = { source, first: at("first").checked };
  if (destination) body.destination = destination;
  if (await does("/puts", source + " is queued", body)) {
    at("source").value = at("destination").value = "";
    at("first").checked = false;
  }
  renews();
});
at("ask-form").addEventListener("submit", async (event) => {
  event.preventDefault();
  token = at("token").value.trim();
  await takes_history();
  await renews();
  if (isAsking) says("Wrong token.");
});
at("freeze").addEventListener("click", async () => {
  const word = status && status.link.state === "frozen" ? "thaw" : "freeze";
  await does("/" + word, word === "thaw" ? "Link is up" : "Link is frozen until thaw");
  renews();
});
at("form").addEventListener("click", () => {
  const root = document.documentElement, dark = matchMedia("(prefers-color-scheme: dark)").matches;
  const is_dark = root.dataset.form ? root.dataset.form === "dark" : dark;
  root.dataset.form = is_dark ? "light" : "dark";
  try { localStorage.setItem("form", root.dataset.form); } catch { /* it isn't kept then */ }
  draws();
});
function takes_form() {
  try {
    const kept = localStorage.getItem("form");
    if (kept === "light" || kept === "dark") document.documentElement.dataset.form = kept;
  } catch { /* none is kept */ }
}
at("filter").addEventListener("input", () => {
  for (const line of at("lines").children) line.hidden = !fits(line.textContent);
});
document.addEventListener("keydown", (event) => {
  if (event.ctrlKey || event.metaKey || event.altKey) return;
  const is_typing = event.target instanceof HTMLInputElement && event.target.type !== "checkbox";
  if (event.key === "Escape") { event.target.blur(); return; }
  if (is_typing) return;
  const doings = { p: () => at("source").focus(), f: () => at("freeze").click(),
    d: () => at("form").click(), "/": () => at("filter").focus(),
    t: () => at("files-filter").focus() };
  if (doings[event.key]) { event.preventDefault(); doings[event.key](); }
});
addEventListener("resize", draws);
addEventListener("hashchange", turns_page);
takes_form();
turns_page();
begins();
</script>
</body>
</html>
"##;
