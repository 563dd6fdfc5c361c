//! How a picture of single entries looks.

/// The style sheet. Exclusive holds are dark and shared ones light, so that they differ in print too. A wait
/// in the queue has an outline, one to share is hatched too, and a wait on a condition has a dotted outline.
/// A label lets the pointer through to the tooltip of its bar.
pub(crate) const STYLE: &[u8] = b"<style type='text/css'>\n\
    text{font-family:sans-serif;font-size:11px;fill:#222}\n\
    .h{font-size:14px;font-weight:bold}\n\
    .r{fill:#f1f1f1}\n\
    .g{stroke:#c8c8c8;stroke-width:1}\n\
    .x{fill:#14467c;stroke:#fff}\n\
    .s{fill:#f5d06a;stroke:#7a5b00}\n\
    .w{fill:#fff;stroke:#222}\n\
    .v{fill:url(#hatch);stroke:#222}\n\
    .z{fill:#fff;stroke:#222;stroke-dasharray:2 2}\n\
    .n{font-size:10px;pointer-events:none}\n\
    .i{font-size:10px;fill:#fff;pointer-events:none}\n\
    .m{fill:none;stroke:#222;stroke-width:1.3;pointer-events:all}\n\
    .a{font-size:10px;text-anchor:end}\n\
    .c{fill:none;stroke:#14467c;stroke-width:1.5}\n\
    .e{fill:#c00;fill-opacity:0.2;stroke:#c00}\n\
    .f{fill:#a00;font-weight:bold}\n\
    </style>\n\
    <defs><pattern id='hatch' width='4' height='4' patternUnits='userSpaceOnUse'>\
    <path d='M0 4L4 0' stroke='#222' stroke-width='0.7'/></pattern></defs>\n\
    <rect width='100%' height='100%' fill='#fff'/>\n";

/// The legend: a line of bars, and a line of marks.
pub(crate) const LEGEND: &[u8] = b"<rect class='x' x='8' y='48' width='24' height='12'/>\
    <text x='37' y='58'>exclusive</text>\n\
    <rect class='s' x='96' y='48' width='24' height='12'/><text x='125' y='58'>shared</text>\n\
    <rect class='w' x='172' y='48' width='24' height='12'/><text x='201' y='58'>in line</text>\n\
    <rect class='v' x='248' y='48' width='24' height='12'/>\
    <text x='277' y='58'>in line to share</text>\n\
    <rect class='z' x='368' y='48' width='24' height='12'/>\
    <text x='397' y='58'>asleep on a condition</text>\n\
    <path class='m' d='M12 74m-4 0l3 3l5 -6'/><text x='21' y='78'>granted</text>\n\
    <path class='m' d='M80 74m-4 0a4 4 0 1 0 8 0a4 4 0 1 0 -8 0m4 -3v3h2'/>\
    <text x='89' y='78'>timed out</text>\n\
    <path class='m' d='M156 74m1 -4l-3 4h4l-3 4'/><text x='165' y='78'>interrupted</text>\n\
    <path class='m' d='M242 74m-3 0a3 3 0 1 0 6 0a3 3 0 1 0 -6 0'/><text x='251' y='78'>missed</text>\n\
    <path class='m' d='M306 74m-3 -3l6 6m0 -6l-6 6'/><text x='315' y='78'>refused</text>\n\
    <path class='m' d='M372 74m0 -4l3 7h-6z'/><text x='381' y='78'>signal</text>\n\
    <path class='m' d='M430 74m0 4l3 -7h-6z'/><text x='439' y='78'>drained</text>\n\
    <path class='m' d='M496 74m-3 -4v8m3 -8v8m3 -8v8'/><text x='507' y='78'>counted</text>\n\
    <path class='m' d='M564 74m0 -5v5m0 2v2'/><text x='570' y='78'>not legal</text>\n\
    <path class='m' d='M634 74m-4 -4l4 4l-4 4m4 -8l4 4l-4 4'/><text x='643' y='78'>barged</text>\n";
