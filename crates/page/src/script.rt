//! The script of a page.

/// It shows the data of the page, line by line; it works nothing out but who owns and who sleeps where, from the states
/// that stand there.
pub const SCRIPT: &str = r##""use strict";
// Shows the data of the page, which FORMATS describes; all states stand in it.
const data = JSON.parse(document.getElementById("data").textContent);
const called = data[0].map(list => list.slice(1).map(decodeURIComponent));
const end = data[data.length - 1];
const wholes = [];
const lines = [];
for (let i = 1; i < data.length - 1; i++) (typeof data[i][0] === "number" ? lines : wholes).push(data[i]);
const ofHistory = end[0].endsWith("history");
const illegal = end[0].startsWith("illegal");
const why = illegal ? decodeURIComponent(end[4]) : "";
// what is said of the line that doesn't fit: of a history, in the words of its judge
const verdict = ofHistory ? why : "Line " + end[3] + " doesn't fit: " + why + ".";
const misfit = () => (end[5] ? (ofHistory ? "In the picture it is " : "It is ") + words(end[5]) + "." : "");
// the line that doesn't fit stands right behind those that are shown, unless these are cut before it
const stops = illegal && end[3] - 2 === lines.length;
// where a line is: by its number in the trace, whose head is line 1; of a history by its row, as its lines have other numbers
const placed = n => (ofHistory ? "row " + n : "line " + (n + 1));
const isCut = end[2] > lines.length && !stops;
const last = lines.length + (stops ? 1 : 0);
const rowHeight = 18, firstRow = 30;

const thread = t => called[0][t - 1];
const mutex = m => called[1][m];
const condition = c => called[2][c];
const queue = q => (q[0] === "m" ? mutex : condition)(q[1]);
const call = c => c[0] + " " + (c.length > 2 ? condition(c[2]) + " " + mutex(c[1]) : mutex(c[1]));
const element = id => document.getElementById(id);

// ---- the state behind so many lines

let at = -1;
let threads = [];
let mutexes = [];

function take(line) {
  const fact = line[1];
  threads[fact[1]] = line[2];
  if (line.length > 3) mutexes[fact[2]] = line[3];
}

function start(whole) {
  threads = whole[0].slice(1);
  mutexes = whole[1].slice(1);
}

function go(to) {
  if (at < 0 || to < at || to - at > 1000) {
    const from = Math.max(0, Math.floor((Math.min(to, lines.length) - 1) / 1000));
    if (wholes.length > 0) start(wholes[from]);
    else start([["", ...Array(called[0].length + 1).fill([1, 0, 0, 0, 0, 0])], ["", ...called[1].map(() => [0, 0, 0])]]);
    at = from * 1000;
  }
  for (; at < to; at++) if (at < lines.length) take(lines[at]);
  at = to;
}

// what each thread owns, and who sleeps on what, in their order; of those with none nothing stands there
function owned() {
  const all = [];
  mutexes.forEach(([owner], m) => owner && (all[owner] ||= []).push(mutex(m)));
  return all;
}

function sleepers() {
  const all = { m: [], c: [] };
  const asleep = threads.flatMap((status, t) => (status[5] ? [[status[5], t]] : []));
  for (const [[letter, number], t] of asleep.sort(([a], [b]) => a[2] - b[2])) (all[letter][number] ||= []).push(thread(t));
  return all;
}

// ---- in words

function does([, killed, reaped, called_, point, bed]) {
  if (reaped) return "reaped";
  if (killed) return "dying";
  if (!called_) return "idle";
  const answered = !point ? "" : point[0] === "unlock" && called_[0].endsWith("wait") ? ", which has released it" : ", answered " + point[1];
  return (bed ? "asleep on " + queue(bed) + ", in " : "in ") + call(called_) + answered;
}

function is([owner, inconsistent, unusable]) {
  if (unusable) return "unusable";
  if (inconsistent) return owner ? "to be declared consistent" : "its owner died";
  return owner ? "owned" : "free";
}

const told = {
  begin: ([, t, ...c]) => thread(t) + " begins: " + call(c),
  point: ([, t, m, op, reply]) => thread(t) + ": " + op + " of " + mutex(m) + " takes effect, answered " + reply,
  death: ([, t, m]) => mutex(m) + " is marked: its owner " + thread(t) + " died",
  sleep: ([, t, ...q]) => thread(t) + " falls asleep on " + queue(q),
  wake: ([, t]) => thread(t) + " is woken",
  move: ([, t, ...q]) => thread(t) + " is moved, asleep, to " + queue(q),
  return: ([, t, reply]) => thread(t) + "'s call returns " + reply,
  kill: ([, t]) => thread(t) + " is killed",
  reaped: ([, t]) => thread(t) + " is reaped: its list was walked",
  renew: ([, t]) => thread(t) + " lives anew",
};

// why a line may come, behind the state that is shown
const because = {
  begin: ([, t]) => thread(t) + " is in no call",
  point: ([, t, m]) => thread(t) + " is awake in that call, and " + mutex(m) + " is " + is(mutexes[m]) + (mutexes[m][0] ? ", by " + thread(mutexes[m][0]) : ""),
  death: ([, t, m]) => thread(t) + " was killed, and owned " + mutex(m),
  sleep: ([, t]) => thread(t) + " is awake in a call",
  wake: ([, t]) => thread(t) + " is asleep",
  move: ([, t]) => thread(t) + " is asleep",
  return: ([, t]) => "its last point was answered " + threads[t][4][1],
  kill: ([, t]) => thread(t) + " lives",
  reaped: ([, t]) => thread(t) + " was killed, and owns nothing more",
  renew: ([, t]) => thread(t) + " was reaped",
};

const words = line => "event " + line[0] + ": " + told[line[1][0]](line[1]);

// ---- the tables: a row for each thing, made once; where a text stays, its cell isn't touched

const named = [new Set(), new Set()];
for (const [, fact, status] of lines) {
  if (status[3]) named[0].add(status[3][1]);
  if (status[3] && status[3].length > 2) named[1].add(status[3][2]);
  if (status[5]) named[status[5][0] === "m" ? 0 : 1].add(status[5][1]);
  if (fact[0] === "point" || fact[0] === "death") named[0].add(fact[2]);
}

function rows(id, count, cells, isNamed, shown) {
  const body = element(id).querySelector("tbody");
  const made = [];
  for (let i = 0; i < count; i++) {
    if (count > 16 && !isNamed(i)) continue;
    const row = body.insertRow();
    const head = row.appendChild(document.createElement("th"));
    head.scope = "row";
    head.textContent = shown(i);
    const texts = Array(cells).fill("");
    made.push([i, texts.map(() => row.insertCell()), texts]);
  }
  element(id).hidden = made.length === 0;
  return made;
}

const threadRows = rows("threads", called[0].length, 3, () => true, i => thread(i + 1));
const mutexRows = rows("mutexes", called[1].length, 3, m => named[0].has(m), mutex);
const conditionRows = rows("conditions", called[2].length, 1, c => named[1].has(c), condition);

function fill([, cells, texts], ...now) {
  now.forEach((text, c) => {
    if (texts[c] !== text) cells[c].textContent = texts[c] = text;
  });
}

function show(to) {
  go(Math.max(0, Math.min(last, Math.trunc(to) || 0)));
  const owns = owned();
  const sleep = sleepers();
  const list = names => (names || []).join(", ");
  for (const row of threadRows) fill(row, does(threads[row[0] + 1]), String(threads[row[0] + 1][0]), list(owns[row[0] + 1]));
  for (const row of mutexRows) {
    const object = mutexes[row[0]];
    fill(row, is(object), object[0] ? thread(object[0]) : "", list(sleep.m[row[0]]));
  }
  for (const row of conditionRows) fill(row, list(sleep.c[row[0]]));
  tell();
}

function tell() {
  const stopped = at > lines.length;
  element("place").textContent = stopped || at === lines.length ? placed(at) : at === 0 ? "before the first line" : placed(at);
  element("line").textContent = stopped ? verdict : at === 0 ? "Nothing has happened yet." : words(lines[at - 1]) + ".";
  element("line").className = stopped ? "misfit" : "";
  const next = lines[at];
  const behind = stops ? (ofHistory ? "The illegal line comes next." : "Line " + end[3] + " comes next, and doesn't fit.") : isCut ? "The lines behind it aren't shown here." : "The end: " + end[1] + " events.";
  element("next").textContent = next ? "Next, " + words(next) + ", as " + because[next[1][0]](next[1]) + "." : stopped ? misfit() : behind;
  element("slider").value = at;
  element("slider").setAttribute("aria-valuetext", element("line").textContent);
  const cursor = element("cursor");
  cursor.hidden = at === 0;
  cursor.style.top = firstRow + rowHeight * at - rowHeight / 2 + "px";
  try {
    history.replaceState(null, "", "#" + at);
  } catch {
    // some browsers allow only so many in a time
  }
}

let lanes = []; // where each thread's is, from the left

function findLanes() {
  lanes = [...document.querySelectorAll("#rows ~ svg > path.l")].map(path => Number(path.getAttribute("d").match(/\d+/)[0]));
}

function follow() {
  const picture = element("picture");
  const top = firstRow + rowHeight * at;
  if (top < picture.scrollTop + 40 || top > picture.scrollTop + picture.clientHeight - 40) picture.scrollTop = top - picture.clientHeight / 2;
  const line = lines[at - 1];
  const lane = line && lanes[line[1][1] - 1];
  if (lane < picture.scrollLeft + 20 || lane > picture.scrollLeft + picture.clientWidth - 160) picture.scrollLeft = lane - picture.clientWidth / 2;
}

// ---- the picture: of a large one only the rows are drawn that can be seen

const large = end[2] > 2000;
const shapes = [];
let tops, bottoms;
let drawnFrom = -1;

function measure() {
  const whole = element("sheet").querySelector("#rows ~ svg");
  const small = element("rows");
  const [, , width, height] = whole.getAttribute("viewBox").split(" ");
  for (const name of ["style", "defs"]) small.append(whole.querySelector(name).cloneNode(true));
  small.setAttribute("width", width);
  element("sheet").style.width = width + "px";
  element("sheet").style.height = height + "px";
  for (let shape = whole.firstElementChild; shape; shape = shape.nextElementSibling) if (shape.matches("text, path, rect[class]")) shapes.push(shape);
  tops = new Float64Array(shapes.length);
  bottoms = new Float64Array(shapes.length);
  shapes.forEach((shape, i) => {
    const path = shape.getAttribute("d");
    const ys = path ? [Number(path.split(" ")[1].split(/[A-Za-z]/)[0]), Number((path.match(/V(\d+)$/) || [0, 0])[1])] : [Number(shape.getAttribute("y"))];
    tops[i] = ys[0] - 20;
    bottoms[i] = Math.max(...ys) + Number(shape.getAttribute("height") || 0) + 20;
  });
  drawRows();
}

function drawRows() {
  if (!large || !tops) return;
  const picture = element("picture");
  if (drawnFrom >= 0 && picture.scrollTop > drawnFrom + 100 && picture.scrollTop + picture.clientHeight < drawnFrom + 2900) return;
  drawnFrom = Math.max(0, picture.scrollTop - 1000);
  const small = element("rows");
  small.style.top = drawnFrom + "px";
  small.setAttribute("height", 3000);
  small.setAttribute("viewBox", [0, drawnFrom, small.getAttribute("width"), 3000].join(" "));
  while (small.children.length > 2) small.lastElementChild.remove();
  for (let i = 0; i < shapes.length; i++) if (tops[i] < drawnFrom + 3000 && bottoms[i] > drawnFrom) small.append(shapes[i].cloneNode(true));
}

if (large) {
  element("sheet").classList.add("large");
  document.addEventListener("DOMContentLoaded", measure);
  element("picture").addEventListener("scroll", drawRows);
  window.addEventListener("resize", drawRows);
}

// ---- stepping

let playing = 0;

function play(on) {
  clearInterval(playing);
  playing = on ? setInterval(() => (at < last ? step(at + 1) : play(false)), 700) : 0;
  element("play").textContent = on ? "Pause" : "Play";
}

function step(to) {
  show(to);
  follow();
}

const moves = { ArrowRight: () => at + 1, ArrowLeft: () => at - 1, Home: () => 0, End: () => last, PageDown: () => at + 10, PageUp: () => at - 10 };
element("first").onclick = () => step(0);
element("back").onclick = () => step(at - 1);
element("on").onclick = () => step(at + 1);
element("last").onclick = () => step(last);
element("play").onclick = () => play(!playing);
element("slider").max = last;
element("slider").oninput = event => step(Number(event.target.value));
document.addEventListener("keydown", event => {
  if (event.ctrlKey || event.altKey || event.metaKey || !(event.key in moves)) return;
  event.preventDefault();
  step(moves[event.key]());
});
element("sheet").addEventListener("click", event => {
  const y = event.clientY - element("sheet").getBoundingClientRect().top;
  step(Math.round((y - firstRow) / rowHeight));
});
if (isCut) {
  const judged = !illegal ? "" : ofHistory ? " The illegal line isn't shown: " + why : " The trace is illegal at line " + end[3] + ", which isn't shown: " + why + ". " + misfit();
  element("cut").textContent = "Of " + end[2] + " lines the first " + lines.length + " are shown here; the picture has all." + judged;
  element("cut").className = illegal ? "misfit" : "";
}
window.addEventListener("hashchange", () => step(Number(location.hash.slice(1))));
show(location.hash.length > 1 ? Number(location.hash.slice(1)) : stops ? last : 0);
document.addEventListener("DOMContentLoaded", findLanes);
window.addEventListener("load", follow);
"##;
