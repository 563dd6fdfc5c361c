//! The fixed parts of a page: its style, its elements and its script.
//!
//! The policy in the head names the hashes of the style and of the script, so that nothing else may run.
//! `checks/page.py` says which they must be after a change.

/// All before the data.
pub const OPENING: &[u8] = b"\
    <!DOCTYPE html>\n\
    <html lang='en'>\n\
    <head>\n\
    <meta charset='utf-8'>\n\
    <meta http-equiv='Content-Security-Policy' content=\"default-src 'none'; script-src 'sha256-WCfACWSWss5+xQRvqUCnUuZJ5dFKmglyyH1gTUtYf8w='; style-src 'sha256-VFslN9JuzyAqpoq/6Eca6zLEq8H0p9mvh4kSYBNZSaU='; base-uri 'none'; form-action 'none'\">\n\
    <meta name='viewport' content='width=device-width'>\n\
    <title>aqs draw</title>\n\
    <style>\n\
    :root{color-scheme:light dark;--ink:#222;--paper:#fff;--band:#f1f1f1;--line:#c8c8c8;--own:#14467c;--own-ink:#fff;--share:#f5d06a;--share-edge:#7a5b00;--bad:#a00}\n\
    @media (prefers-color-scheme:dark){:root{--ink:#e8e8e8;--paper:#16181b;--band:#22262b;--line:#4a4f57;--own:#8ab8ee;--own-ink:#111;--share:#6b5310;--share-edge:#f5d06a;--bad:#ff8a80}}\n\
    body{font-family:sans-serif;font-size:15px;color:var(--ink);background:var(--paper);margin:1em}\n\
    h1{font-size:1.2em}\n\
    button,select,input{font:inherit}\n\
    button:focus-visible,select:focus-visible,input:focus-visible{outline:3px solid var(--own)}\n\
    .tools{display:flex;flex-wrap:wrap;gap:.5em;align-items:center;margin:.5em 0}\n\
    #at{flex:1 1 20em}\n\
    #panel{border:1px solid var(--line);padding:.2em 1em;min-height:8em}\n\
    #entry{font-weight:bold}\n\
    pre{white-space:pre-wrap}\n\
    #wrong{color:var(--bad);font-weight:bold}\n\
    svg{display:block;width:100%;height:auto}\n\
    svg text{font-size:11px;fill:var(--ink)}\n\
    .r{fill:var(--band)}\n\
    .g{stroke:var(--line);stroke-width:1}\n\
    .x{fill:var(--own);stroke:var(--paper)}\n\
    .s{fill:var(--share);stroke:var(--share-edge)}\n\
    .w{fill:var(--paper);stroke:var(--ink)}\n\
    .z{fill:var(--paper);stroke:var(--ink);stroke-dasharray:2 2}\n\
    .x,.s,.w,.z{cursor:pointer}\n\
    svg .i{font-size:10px;fill:var(--own-ink);pointer-events:none}\n\
    svg .n{font-size:10px;pointer-events:none}\n\
    .m{fill:none;stroke:var(--ink);stroke-width:1.3}\n\
    .c{fill:none;stroke:var(--own);stroke-width:1.5}\n\
    .k{fill:none;stroke:var(--ink);stroke-width:2;pointer-events:none}\n\
    .e{fill:var(--bad);fill-opacity:.2;stroke:var(--bad)}\n\
    </style>\n\
    </head>\n\
    <body>\n\
    <h1 id='title'>aqs draw</h1>\n\
    <p><span id='part'></span> <span id='wrong'></span></p>\n\
    <pre id='why'></pre>\n\
    <noscript><p>This page steps through a history by a script of its own. Without scripts, aqs draw without --page writes a picture.</p></noscript>\n\
    <div class='tools' role='group' aria-label='Steps'>\n\
    <button id='first' type='button' aria-keyshortcuts='Home'>First</button>\n\
    <button id='back' type='button' aria-keyshortcuts='ArrowLeft'>Back</button>\n\
    <button id='forward' type='button' aria-keyshortcuts='ArrowRight'>Forward</button>\n\
    <button id='last' type='button' aria-keyshortcuts='End'>Last</button>\n\
    <input id='at' type='range' step='1' min='0' max='0' value='0' aria-label='Entry'>\n\
    </div>\n\
    <div class='tools' role='group' aria-label='Find an entry'>\n\
    <label>Seat <select id='seat'></select></label>\n\
    <label>Kind <select id='kind'></select></label>\n\
    <button id='previous' type='button'>Find before</button>\n\
    <button id='next' type='button'>Find next</button>\n\
    <span id='found' role='status'></span>\n\
    </div>\n\
    <div class='tools' role='group' aria-label='Zoom'>\n\
    <button id='nearer' type='button' aria-keyshortcuts='+'>Zoom in</button>\n\
    <button id='farther' type='button' aria-keyshortcuts='-'>Zoom out</button>\n\
    </div>\n\
    <section id='panel' aria-live='polite' aria-atomic='true' aria-label='State after the entry'>\n\
    <p id='entry'></p>\n\
    <ul id='state'></ul>\n\
    </section>\n\
    <svg id='picture' role='img' aria-label='Who holds and who waits, from entry to entry. The panel says the same in words.' viewBox='0 0 960 40'></svg>\n\
    <details>\n\
    <summary>Legend and keys</summary>\n\
    <ul>\n\
    <li>A dark bar with a number: the seat owns, with so many holds.</li>\n\
    <li>A light, lower bar with a number: shared holds or permits.</li>\n\
    <li>An outlined bar with q: the seat waits in the queue. qx: to own or to write. qs: to read, for permits or for a latch.</li>\n\
    <li>A dotted bar with c and a number: the seat sleeps on that condition.</li>\n\
    <li>A circle: missed. A cross: refused. A triangle up: signal. A triangle down: drained. Three strokes: counted.</li>\n\
    <li>A tick: granted, after a wait. A clock: a wait timed out. A zigzag: a wait was interrupted. Two arrowheads: barged, past a waiter.</li>\n\
    <li>A frame through all rows: the entry of the panel. A red field: the first entry that is not legal.</li>\n\
    <li>Arrow left and right: one entry back and forward. Home and End: the first and the last. + and -: zoom. A click on a bar goes to its first entry.</li>\n\
    </ul>\n\
    </details>\n\
    <script type='application/json' id='data'>\n";

/// All after the data.
pub const CLOSING: &[u8] = b"\n\
    </script>\n\
    <script>\n\
    'use strict';\n\
    (function () {\n\
      const byId = (id) => document.getElementById(id);\n\
      const data = JSON.parse(byId('data').textContent);\n\
      const object = data.header.split(' ')[0];\n\
      const { from, to } = data;\n\
      const bars = data.stretches.slice(1).map((row) => (\n\
        { kind: row[0], seat: row[1], first: row[2], last: row[3], holds: row[4] }\n\
      ));\n\
      const entries = data.entries_shown.slice(1).map((row) => (\n\
        { seat: row[0], words: row[1], word: row[1].split(' ')[0] }\n\
      ));\n\
      const marks = data.marks.slice(1).map((row) => ({ sign: row[0], seat: row[1], at: row[2] }));\n\
      const amounts = data.amounts.slice(1);\n\
      const seats = Array.from(new Set(bars.concat(entries).map((it) => it.seat))).sort((a, b) => a - b);\n\
      const rowOf = new Map(seats.map((seat, row) => [seat, row]));\n\
      const numberOf = (index) => String(BigInt(data.folded) + BigInt(index));\n\
    \n\
      // The names that were given to seats and conditions. They are only ever the text of an element.\n\
      const names = new Map((data.names || []).slice(1));\n\
      const told = (thing) => (names.has(thing) ? thing + ' (' + names.get(thing) + ')' : thing);\n\
    \n\
      // Who waited before the first entry, in order.\n\
      const place = new Map();\n\
      if (data.start !== null) {\n\
        data.start.line.slice(1).forEach((seat, rank) => place.set(seat, rank));\n\
        data.start.sleepers.slice(1).forEach((row, rank) => place.set(row[1], seats.length + rank));\n\
      }\n\
      const rankOf = (bar) => (bar.first === from && place.has(bar.seat) ? place.get(bar.seat) : Infinity);\n\
      const slept = new Map();\n\
      bars.forEach((bar) => {\n\
        if (bar.kind[0] === 'z') slept.set(bar.seat + ' ' + bar.last, bar);\n\
      });\n\
      const less = (a, b) => (a === b ? 0 : a < b ? -1 : 1);\n\
      // The queue and each condition are in the order of arrival. Waiters that one entry moved to the queue are in the\n\
      // order in which they began to sleep.\n\
      function inOrder(a, b) {\n\
        const now = less(a.first, b.first) || less(rankOf(a), rankOf(b));\n\
        const x = slept.get(a.seat + ' ' + (a.first - 1));\n\
        const y = slept.get(b.seat + ' ' + (b.first - 1));\n\
        return now || (x && y ? less(x.first, y.first) || less(rankOf(x), rankOf(y)) : 0);\n\
      }\n\
    \n\
      const covering = (k) => bars.filter((bar) => bar.first <= k && k <= bar.last);\n\
      const plural = (count, word) => count + ' ' + word + (count === '1' ? '' : 's');\n\
      const named = (list, none) => (list.length === 0 ? none : list.join(', '));\n\
      const seatOf = (it) => told('seat ' + it.seat);\n\
      const bySeat = (a, b) => a.seat - b.seat;\n\
    \n\
      function stateLines(k) {\n\
        const all = covering(k);\n\
        const of = (kind) => all.filter((bar) => bar.kind === kind).sort(bySeat);\n\
        const lines = [];\n\
        if (object === 'lock' || object === 'rw') {\n\
          lines.push('Owner: ' + named(of('x').map((it) => seatOf(it) + ' with ' + plural(it.holds, 'hold')), 'nobody'));\n\
        }\n\
        if (object === 'rw') {\n\
          lines.push('Readers: ' + named(of('s').map((it) => seatOf(it) + ' with ' + plural(it.holds, 'hold')), 'nobody'));\n\
        }\n\
        if (object === 'semaphore') {\n\
          lines.push('Held: ' + named(of('s').map((it) => seatOf(it) + ' with ' + plural(it.holds, 'permit')), 'nothing'));\n\
          lines.push('Free permits: ' + amounts[k - from]);\n\
        }\n\
        if (object === 'latch') lines.push('Count: ' + amounts[k - from]);\n\
        lines.push('Queue, first to last: ' + named(of('w').sort(inOrder).map(seatOf), 'nobody'));\n\
        const kinds = Array.from(new Set(all.map((bar) => bar.kind))).filter((kind) => kind[0] === 'z');\n\
        kinds.sort((a, b) => a.slice(1) - b.slice(1)).forEach((kind) => {\n\
          lines.push('Asleep on ' + told('condition ' + kind.slice(1)) + ', longest first: '\n\
            + named(of(kind).sort(inOrder).map(seatOf), 'nobody'));\n\
        });\n\
        return lines;\n\
      }\n\
    \n\
      const MEANING = {\n\
        got: 'acquired at once', trygot: 'acquired at once, by a try',\n\
        queued: 'joined the queue', granted: 'acquired, after a wait in the queue',\n\
        missed: 'did not get it, and does not wait', left: 'gave up its wait in the queue',\n\
        gave: 'released', refused: 'was refused',\n\
        await: 'released all, and waits on a condition',\n\
        lapse: 'gave up its wait on a condition, and joined the queue',\n\
        signal: 'moved the longest waiter of a condition to the queue, if there was one',\n\
        signalall: 'moved all waiters of a condition to the queue',\n\
        back: 'came back from its wait on a condition',\n\
        counted: 'counted down', drained: 'took all free permits',\n\
      };\n\
      const barged = new Set(marks.filter((mark) => mark.sign === 'barged').map((mark) => mark.at));\n\
      // What an entry does. A condition with a name is told in the place of 'a condition'.\n\
      const deedOf = (entry) => {\n\
        const condition = 'condition ' + entry.words.split(' ')[1];\n\
        const deed = MEANING[entry.word];\n\
        return names.has(condition) ? deed.split('a condition').join(told(condition)) : deed;\n\
      };\n\
      const entryLine = (k) => {\n\
        const entry = entries[k - from];\n\
        const words = 'Entry ' + numberOf(k) + ': ' + seatOf(entry) + ' ' + entry.words;\n\
        return words + '. It ' + deedOf(entry) + (barged.has(k) ? ', past a waiter in the queue.' : '.');\n\
      };\n\
    \n\
      // The picture: as many entries as have room, around the one that is chosen.\n\
      const WIDTHS = [2, 4, 8, 12, 20, 32, 48];\n\
      const LEFT = seats.some((seat) => names.has('seat ' + seat)) ? 200 : 72;\n\
      const RIGHT = 960;\n\
      const SHAPES = {\n\
        missed: 'm-3 0a3 3 0 1 0 6 0a3 3 0 1 0 -6 0', refused: 'm-3 -3l6 6m0 -6l-6 6',\n\
        signal: 'm0 -4l3 7h-6z', drained: 'm0 4l3 -7h-6z',\n\
        counted: 'm-3 -4v8m3 -8v8m3 -8v8', granted: 'm-4 0l3 3l5 -6',\n\
        timeout: 'm-4 0a4 4 0 1 0 8 0a4 4 0 1 0 -8 0m4 -3v3h2', interrupt: 'm1 -4l-3 4h4l-3 4',\n\
        barged: 'm-4 -4l4 4l-4 4m4 -8l4 4l-4 4',\n\
      };\n\
    \n\
      // What a wait in the queue is for, if its first entry is shown: x to own or to write, s to read or for permits.\n\
      function modeOf(bar) {\n\
        const entry = entries[bar.first - from];\n\
        return entry.seat === bar.seat && entry.word === 'queued' ? entry.words.split(' ')[1] : '';\n\
      }\n\
    \n\
      // A page of an illegal history opens before its first illegal entry.\n\
      let [at, width, begin] = [data.why ? to - 1 : from, 4, from];\n\
    \n\
      function element(parent, name, attributes, text) {\n\
        const it = document.createElementNS('http://www.w3.org/2000/svg', name);\n\
        Object.keys(attributes).forEach((key) => it.setAttribute(key, String(attributes[key])));\n\
        if (text !== undefined) it.textContent = text;\n\
        parent.appendChild(it);\n\
        return it;\n\
      }\n\
    \n\
      function meaningOf(bar) {\n\
        const kind = bar.kind;\n\
        const does = kind === 'x' ? 'owns, with ' + plural(bar.holds, 'hold')\n\
          : kind === 's' ? 'has ' + plural(bar.holds, object === 'semaphore' ? 'permit' : 'shared hold')\n\
            : kind === 'w' ? 'waits in the queue' : 'sleeps on ' + told('condition ' + kind.slice(1));\n\
        return seatOf(bar) + ' ' + does + ', entries ' + numberOf(bar.first) + ' to ' + numberOf(bar.last);\n\
      }\n\
    \n\
      function drawBar(picture, bar, x, y, end) {\n\
        const left = x(Math.max(bar.first, begin));\n\
        const wide = x(Math.min(bar.last + 1, end)) - left;\n\
        const top = y(bar.seat) + (bar.kind === 's' ? 17 : 3);\n\
        const it = element(picture, 'rect', { class: bar.kind[0], x: left, y: top, width: wide, height: 12 });\n\
        element(it, 'title', {}, meaningOf(bar));\n\
        it.addEventListener('click', () => go(bar.first));\n\
        const label = bar.kind === 'w' ? 'q' + modeOf(bar) : bar.kind[0] === 'z' ? 'c' + bar.kind.slice(1) : bar.holds;\n\
        if (wide >= 6 * label.length + 4) {\n\
          element(picture, 'text', { class: bar.kind === 'x' ? 'i' : 'n', x: left + 4, y: top + 10 }, label);\n\
        }\n\
      }\n\
    \n\
      function drawMark(picture, at, seat, sign, x, y, step) {\n\
        const path = 'M' + (x(at) + step / 2) + ' ' + (y(seat) + 34) + SHAPES[sign];\n\
        element(element(picture, 'path', { class: 'm', d: path }), 'title', {}, entryLine(at));\n\
      }\n\
    \n\
      function drawCurve(picture, x, end, top) {\n\
        const numbers = amounts.map(Number);\n\
        const low = Math.min(0, numbers.reduce((a, b) => Math.min(a, b), 0));\n\
        const high = Math.max(1, numbers.reduce((a, b) => Math.max(a, b), 0));\n\
        const y = (n) => top + 40 - Math.round((n - low) / (high - low) * 40);\n\
        let path = 'M' + LEFT + ' ' + y(0);\n\
        for (let k = begin; k < end; k += 1) path += 'V' + y(numbers[k - from]) + 'H' + x(k + 1);\n\
        element(picture, 'text', { x: 8, y: top + 24 }, object === 'latch' ? 'count' : 'free');\n\
        element(picture, 'path', { class: 'c', d: path });\n\
      }\n\
    \n\
      function draw() {\n\
        const picture = byId('picture');\n\
        const step = WIDTHS[width];\n\
        const room = Math.max(1, Math.floor((RIGHT - LEFT) / step) - 1);\n\
        if (at < begin) begin = at;\n\
        if (at >= begin + room) begin = at - room + 1;\n\
        begin = Math.max(from, Math.min(begin, to - room));\n\
        const end = Math.min(to, begin + room);\n\
        const top = amounts.length > 0 ? 52 : 4;\n\
        const bottom = top + 40 * seats.length;\n\
        const x = (k) => LEFT + (k - begin) * step;\n\
        const y = (seat) => top + 40 * rowOf.get(seat);\n\
        picture.replaceChildren();\n\
        picture.setAttribute('viewBox', '0 0 ' + RIGHT + ' ' + (bottom + 24));\n\
        seats.forEach((seat, row) => {\n\
          if (row % 2 === 0) element(picture, 'rect', { class: 'r', x: 0, y: y(seat), width: RIGHT, height: 40 });\n\
          element(picture, 'text', { x: 8, y: y(seat) + 20 }, told('seat ' + seat));\n\
        });\n\
        const pitch = Math.max(1, Math.ceil(100 / step));\n\
        for (let k = begin; k < end; k += 1) {\n\
          if (k % pitch === 0) {\n\
            element(picture, 'path', { class: 'g', d: 'M' + x(k) + ' ' + top + 'V' + (bottom + 4) });\n\
            element(picture, 'text', { x: x(k) + 3, y: bottom + 14 }, numberOf(k));\n\
          }\n\
        }\n\
        if (amounts.length > 0) drawCurve(picture, x, end, 4);\n\
        bars.forEach((bar) => {\n\
          if (bar.first < end && bar.last >= begin) drawBar(picture, bar, x, y, end);\n\
        });\n\
        marks.forEach((mark) => {\n\
          if (mark.at >= begin && mark.at < end) {\n\
            drawMark(picture, mark.at, mark.seat, mark.sign, x, y, step);\n\
          }\n\
        });\n\
        if (data.wrong === numberOf(to) && end === to) {\n\
          const it = element(picture, 'rect', { class: 'e', x: x(to), y: top, width: step, height: bottom - top });\n\
          element(it, 'title', {}, 'not legal');\n\
        }\n\
        element(picture, 'rect', { class: 'k', x: x(at), y: top, width: step, height: bottom - top });\n\
      }\n\
    \n\
      function show() {\n\
        byId('entry').textContent = entryLine(at);\n\
        byId('state').replaceChildren();\n\
        stateLines(at).forEach((line) => {\n\
          const it = document.createElement('li');\n\
          it.textContent = line;\n\
          byId('state').appendChild(it);\n\
        });\n\
        byId('at').value = String(at);\n\
        byId('at').setAttribute('aria-valuetext', 'entry ' + numberOf(at));\n\
        draw();\n\
      }\n\
    \n\
      function go(k) {\n\
        at = Math.max(from, Math.min(k, to - 1));\n\
        byId('found').textContent = '';\n\
        show();\n\
      }\n\
    \n\
      function zoom(more) {\n\
        width = Math.max(0, Math.min(width + more, WIDTHS.length - 1));\n\
        draw();\n\
      }\n\
    \n\
      function find(direction) {\n\
        const seat = byId('seat').value;\n\
        const word = byId('kind').value;\n\
        for (let k = at + direction; k >= from && k < to; k += direction) {\n\
          const entry = entries[k - from];\n\
          if ((seat === '' || String(entry.seat) === seat) && (word === '' || entry.word === word)) {\n\
            go(k);\n\
            return;\n\
          }\n\
        }\n\
        byId('found').textContent = direction > 0 ? 'No later entry is like that.' : 'No earlier entry is like that.';\n\
      }\n\
    \n\
      function option(select, value, text) {\n\
        const it = document.createElement('option');\n\
        it.value = value;\n\
        it.textContent = text;\n\
        byId(select).appendChild(it);\n\
      }\n\
    \n\
      const KEYS = {\n\
        ArrowLeft: () => go(at - 1), ArrowRight: () => go(at + 1), Home: () => go(from), End: () => go(to - 1),\n\
        '+': () => zoom(1), '-': () => zoom(-1),\n\
      };\n\
      const BUTTONS = {\n\
        first: KEYS.Home, back: KEYS.ArrowLeft, forward: KEYS.ArrowRight, last: KEYS.End,\n\
        nearer: KEYS['+'], farther: KEYS['-'], next: () => find(1), previous: () => find(-1),\n\
      };\n\
    \n\
      byId('title').textContent = document.title = data.header;\n\
      const shown = to - from;\n\
      byId('part').textContent = shown === 0 ? 'no entry is shown of ' + data.entries\n\
        : data.cut ? 'the first ' + shown + ' entries of ' + data.entries + '; --from and --to choose others'\n\
          : 'entries ' + numberOf(from) + ' to ' + numberOf(to - 1) + ' of ' + data.entries;\n\
      if (data.wrong !== null) byId('wrong').textContent = 'not legal at entry ' + data.wrong;\n\
      byId('why').textContent = data.why || '';\n\
      if (shown === 0) {\n\
        byId('entry').textContent = 'No entry is shown.';\n\
        return;\n\
      }\n\
      option('seat', '', 'any seat'); option('kind', '', 'any kind');\n\
      seats.forEach((seat) => option('seat', String(seat), told('seat ' + seat)));\n\
      Array.from(new Set(entries.map((entry) => entry.word))).sort().forEach((word) => option('kind', word, word));\n\
      byId('at').setAttribute('min', String(from));\n\
      byId('at').setAttribute('max', String(to - 1));\n\
      byId('at').addEventListener('input', () => go(Number(byId('at').value)));\n\
      Object.keys(BUTTONS).forEach((id) => byId(id).addEventListener('click', BUTTONS[id]));\n\
      document.addEventListener('keydown', (event) => {\n\
        const inField = ['INPUT', 'SELECT'].includes(event.target && event.target.tagName);\n\
        if (inField || event.ctrlKey || event.altKey || event.metaKey || KEYS[event.key] === undefined) return;\n\
        event.preventDefault();\n\
        KEYS[event.key]();\n\
      });\n\
      show();\n\
    })();\n\
    </script>\n\
    </body>\n\
    </html>\n";
