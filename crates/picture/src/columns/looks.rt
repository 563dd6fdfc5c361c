//! How a picture in columns looks.

/// The style sheet. Blocks are narrow, so they have no outlines: exclusive holds are dark and shared ones
/// light, a wait in the queue is hatched, and one on a condition is dotted.
pub(crate) const STYLE: &[u8] = b"<style type='text/css'>\n\
    text{font-family:sans-serif;font-size:11px;fill:#222}\n\
    .h{font-size:14px;font-weight:bold}\n\
    .r{fill:#f1f1f1}\n\
    .g{stroke:#c8c8c8;stroke-width:1}\n\
    .x{fill:#14467c}\n\
    .s{fill:#f5d06a}\n\
    .v{fill:url(#hatch)}\n\
    .z{fill:url(#dots)}\n\
    .q{fill:#777}\n\
    .m{fill:none;stroke:#222;stroke-width:1.3}\n\
    .a{font-size:10px;text-anchor:end}\n\
    .c{fill:#14467c}\n\
    .e{fill:#c00;fill-opacity:0.2;stroke:#c00}\n\
    .f{fill:#a00;font-weight:bold}\n\
    </style>\n\
    <defs><pattern id='hatch' width='4' height='4' patternUnits='userSpaceOnUse'>\
    <rect width='4' height='4' fill='#fff'/><path d='M0 4L4 0' stroke='#222' stroke-width='1'/></pattern>\
    <pattern id='dots' width='4' height='4' patternUnits='userSpaceOnUse'>\
    <rect width='4' height='4' fill='#dbe7f3'/><circle cx='2' cy='2' r='0.9' fill='#222'/></pattern></defs>\n\
    <rect width='100%' height='100%' fill='#fff'/>\n";

/// The legend: a line of blocks.
pub(crate) const LEGEND: &[u8] = b"<rect class='x' x='8' y='48' width='24' height='12'/>\
    <text x='37' y='58'>exclusive</text>\n\
    <rect class='s' x='96' y='48' width='24' height='12'/><text x='125' y='58'>shared</text>\n\
    <rect class='v' x='172' y='48' width='24' height='12'/><text x='201' y='58'>in line</text>\n\
    <rect class='z' x='248' y='48' width='24' height='12'/>\
    <text x='277' y='58'>asleep on a condition</text>\n\
    <rect class='q' x='400' y='48' width='24' height='12'/>\
    <text x='429' y='58'>most in line at once, and refused entries</text>\n";
