//! The text of the page.

/// The skeleton of the page. `$name$` is a part, and `@name@` what code draws. The policy in the head makes a
/// browser refuse scripts and links out.
pub const PAGE: &str = "\
<!doctype html><html lang=\"en\"><head><meta charset=\"utf-8\"/>
<meta http-equiv=\"Content-Security-Policy\" content=\"default-src 'none';style-src 'unsafe-inline'\"/>
<meta name=\"viewport\" content=\"width=device-width,initial-scale=1\"/>
<title>$title$, $start$</title><style>$style$</style></head><body>\
<header><h1>$title$</h1><p>$start$ <b>t = 0</b> &#183; $length$ &#183; $rows$ links \
&#183; ledger version 2@filters@</p>@part@@run@\
<p class=\"key\"><span class=\"sw a\"></span>A, drawn upwards \
<span class=\"sw b\"></span>B, drawn downwards \
<span class=\"sw si\"></span>network silent <span class=\"sw st\"></span>clock step \
<span class=\"sw ou\"></span>link pauses <span class=\"sw nr\"></span>nothing recorded &#183; \
pairs of numbers are \
<span class=\"a\">A</span><i>/</i><span class=\"b\">B</span> &#183; #n is the frame's \
number in that recording, from 0</p></header>\
<div class=\"tiles\">\
<div class=\"tile$?trouble$ hot$/$\"><h3>Links</h3><p class=\"big\">$trouble$\
<small> of $links$ in trouble</small></p><p class=\"sub\">\
$notice$ with a notice &#183; $silent$ never seen &#183; $clean$ clean</p></div>\
<div class=\"tile\"><h3>Frames</h3><p class=\"big\">$frames$</p><p class=\"sub\">$pair$ on A / on B</p></div>\
<div class=\"tile\"><h3>Delivered</h3><p class=\"big\">$delivered$</p>\
<p class=\"sub\">$copies$ copies taken off</p></div>\
<div class=\"tile$?discards$ hot$/$\"><h3>Discarded</h3><p class=\"big\">$discards$\
<small> = $share$ %</small></p><p class=\"sub\">@reasons@</p></div>\
<div class=\"tile$?missing$ hot$/$\"><h3>Lost numbers</h3><p class=\"big\">$lost$</p>\
<p class=\"sub\">missing in the links' count$?estimated$ &#183; $estimated$ of them estimated$/$</p></div>\
<div class=\"tile\"><h3>Alone</h3><p class=\"big\">$alone$</p>\
<p class=\"sub\">came on this network, and is lost on the other</p></div>\
<div class=\"tile$?late$ hot$/$\"><h3>Skew, greatest</h3><p class=\"big\">@skew@</p></div>\
<div class=\"tile taps$?ends$ hot$/$\"><h3>Recordings</h3><p class=\"big\">\
<span class=\"tap a\"><b>A</b> @ending a@</span><span class=\"tap b\"><b>B</b> @ending b@</span></p>\
<p class=\"sub\">silent A $silent_a$ B $silent_b$ </p></div></div>\
<section><h2>What to look at first</h2><ol class=\"find\">@findings@</section>\
<section class=\"tl\"><h2>Timeline <small>a column is $column$; each row has its own scale</small></h2>\
@timeline@</section>@transit@\
<section><h2>Links, worst first <small>$trouble$ in trouble \
(as the worst finding that names the link says), \
$notice$ with a notice, $silent$ never seen, $clean$ clean</small></h2>@links@</section>\
<section class=\"dets\"><h2>Links in trouble</h2>@strips@</section>@comparison@\
<section class=\"leg\"><h2>Words and rules</h2><div class=\"lgs\">\
<div class=\"lg\"><h4>Class: the first that fits</h4><dl>\
<dt>cut</dt><dd>fewer bytes recorded than were on the wire <i>the recorder's limit</i></dd>\
<dt>runt</dt><dd>wire length below 60 <i>least Ethernet frame, without FCS</i></dd>\
<dt>oversize</dt><dd>wire length above 1514 <i>greatest Ethernet frame, without FCS</i></dd>\
<dt>foreign</dt><dd>the first four bytes aren't the constant field <i>Part 7, link addressing</i></dd>\
<dt>unconfigured</dt><dd>the link isn't in the table <i>Part 7, filtering by link</i></dd>\
<dt>toolong</dt><dd>wire length + 4 above the link's Smax <i>Part 7, filtering by size</i></dd>\
</dl></div>\
<div class=\"lg\"><h4>Policing, integrity checking, redundancy</h4><dl>\
<dt>excess</dt><dd>the link's account on this network doesn't hold the frame <i>Part 7, policing</i></dd>\
<dt>next, skip</dt><dd>the number after the one before, or one further <i>Part 7, integrity \
checking</i></dd>\
<dt>out</dt><dd>any other number; discarded <i>Part 7, integrity checking</i></dd>\
<dt>first, reset</dt><dd>the run's first frame of the link, or number 0 <i>this project's profile</i></dd>\
<dt>deliver</dt><dd>the first valid frame of its number wins <i>Part 7, redundancy management</i></dd>\
<dt>copy</dt><dd>same number on the other network, at most SkewMax after <i>Part 7</i></dd>\
</dl></div>\
<div class=\"lg\"><h4>Read from the lines (this project's profile)</h4><dl>\
<dt>lost</dt><dd>a number missing on one network, checked by the next one, the other network, and the \
time</dd>\
<dt>alone</dt><dd>lost on one network, and came on this one</dd>\
<dt>repeat</dt><dd>a number that came before on its network</dd>\
<dt>early</dt><dd>closer to the link's frame before than BAG less jitter, and SkewMax where the other \
network \
doesn't show it too</dd>\
<dt>late</dt><dd>second of a pair, beyond SkewMax, so delivered twice</dd>\
<dt>finding</dt><dd>a cause with the signs that it explains; each sign is in one</dd>\
<dt>trouble, notice</dt><dd>as its kind says; scattered signs are trouble from 3 on, and from one in each \
1000 frames</dd>\
</dl></div>\
</div></section>\
<footer><p>$tie$@whole@$sizes$\
Numbers count to 255 and go on with 1: where more are missing in a row, rounds of 255 are estimated by \
the time. \
This page has no script and fetches nothing.</p></footer></body></html>\n";

/// The program that ran, and its command line.
pub const RUN: &str = "<p class=\"of\">$name$ $version$ (commit $commit$): <code>";

/// The table of a report without a manifest.
pub const UNTIED: &str = "\
<p class=\"of\">table <b>$table$</b>: nothing ties it to the ledger, since no manifest of the run \
was given</p>";

/// A file of the run. The facts after its size are those of a recording.
pub const FILE: &str = "\
<br/>$word$ <b>$path$</b>$?one$ and 1 more file$/$$?more$ and $more$ more files$/$: \
$bytes$ bytes$?counted$, $frames$ frames$/$\
$?spans$ from $first$ to $last$$/$$?end$, ends $end$$/$$?reason$ ($reason$)$/$\
$?dropped$, <b>its recorder dropped $dropped$ packet$?several$s$/$: lost numbers may be these</b>$/$\
$?sha256$, SHA-256 <code>$sha256$</code>$/$";

/// A file of a recording in several, where its digest is known.
pub const ONE_FILE: &str = "\
$?sha256$<br/>$word$, file $number$ <b>$path$</b>: $bytes$ bytes, SHA-256 <code>$sha256$</code>$/$";

/// The page's words on a report without a manifest, and with one.
pub const NOT_TIED: &str = "Table and ledger were not tied: no manifest of the run was given. ";

pub const TIED: &str =
    "The table has the SHA-256 of the run's manifest, and the ledger its length. ";

pub const TIED_BY_DIGESTS: &str = "Table and ledger have the SHA-256 of the run's manifest. ";

/// Where a ledger ends that isn't whole.
pub const STOP: &str = "\
The ledger isn't whole: its run was stopped, or goes on. It ends \
$?within$within line $next$$/$$?without$without its total$/$; whole lines: $lines$. ";

/// The page's words on a part of a ledger.
pub const PART: &str = "\
<p class=\"part\"><b>A part of the flight:</b>$?from$ from $from$$/$$?to$ to $to$$/$$?link$ links $link$$/$\
$?network$ network $network$$/$$?partial$ lines that afdxmon cut --ledger-only wrote$/$. Numbers and \
findings are those of these lines alone.</p>";

/// The page's words on a ledger where lines of frames are left out.
pub const PARTIAL: &str = "\
The ledger is a part, without lines of counts to compare with: copies whose delivery is left out are taken. ";

/// The page's words on a ledger that is whole.
pub const WHOLE: &str = "The lines of counts agree with the lines of frames. ";

/// The page's words on a ledger that doesn't tell sizes, and on those that do.
pub const NO_SIZES: &str = "\
The ledger doesn't tell sizes, which <code>watch --details</code> writes: loads are left out. ";

pub const LENGTHS: &str = "Sizes are the lengths on the wire that the ledger has. ";

pub const SIZES: &str =
    "Sizes are those kept by a filter of the table that takes every frame whole. ";

/// The style sheet. A is blue and drawn upwards, B orange and drawn downwards, everywhere; what is wrong has
/// one colour more.
pub const STYLE: &str =
    r#":root{color-scheme:light dark;--bg:#fbfbf9;--card:#fff;--ink:#17202a;--dim:#5d6873;--line:#dde1e4;
--faint:#eceeef;--a:#0b66b2;--b:#c4560a;--alarm:#a3195b;--note:#8a6d00;--ok:#7d8b94;--skew:#66727c;
--deliv:#4b6b7a;--sil:rgba(163,25,91,.20);--nr:rgba(93,104,115,.20);--st:rgba(138,109,0,.42);
--ou:rgba(75,107,122,.36)}
@media screen and (prefers-color-scheme:dark){:root{--bg:#12171c;--card:#1a2128;--ink:#e8ecef;
--dim:#9aa6b0;--line:#323c45;--faint:#262f37;--a:#5fb0f2;--b:#f49a4d;--alarm:#ff86bb;--note:#e3c34a;
--ok:#71808a;--skew:#93a1ac;--deliv:#86a9ba;--sil:rgba(255,134,187,.24);--nr:rgba(154,166,176,.22);
--st:rgba(227,195,74,.42);--ou:rgba(134,169,186,.36)}}
*{box-sizing:border-box}body{margin:0 auto;padding:22px 26px;max-width:1440px;background:var(--bg);
color:var(--ink);font:14px/1.4 system-ui,"Segoe UI",Roboto,"Helvetica Neue","Liberation Sans",
sans-serif;font-variant-numeric:tabular-nums}h1{font-size:24px;margin:0;letter-spacing:-.01em}
h2{font-size:17px;margin:28px 0 10px}h2 small,.row small,th small{font-weight:400;color:var(--dim);
font-size:12px}h3,h4,p{margin:0}a{color:inherit;text-decoration-color:var(--dim);font-weight:600}
header p{color:var(--dim);margin-top:4px}header p b{color:var(--ink);font-weight:600}
.of{font-size:12px;overflow-wrap:anywhere}
i{font-style:normal;color:var(--dim)}.a{color:var(--a)}.b{color:var(--b)}.z{color:var(--ok);
opacity:.75}.key .sw{display:inline-block;width:18px;height:11px;margin:0 5px 0 10px;
border-radius:2px;vertical-align:-1px}.key .sw:first-child{margin-left:0}.sw.a{background:var(--a)}
.sw.b{background:var(--b)}.sw.si{background:var(--sil);border-bottom:2px solid var(--alarm)}
.new{color:var(--alarm);font-weight:600}.part{margin-top:4px}
.sw.nr{background:var(--nr)}.sw.st{background:var(--st)}
.sw.ou{background:var(--ou)}.tiles{display:grid;grid-template-columns:repeat(4,1fr);gap:12px;
margin-top:18px}.tile{background:var(--card);border:1px solid var(--line);
border-top:3px solid var(--ok);border-radius:6px;padding:10px 14px 11px;min-width:0}
.tile.hot{border-top-color:var(--alarm)}.tile h3{font-size:12px;font-weight:600;color:var(--dim)}
.big{font-size:25px;line-height:1.25;font-weight:600;letter-spacing:-.01em}
.big small{font-size:14px;font-weight:400;color:var(--dim)}.big i{padding:0 5px;font-weight:400}
.taps .big{font-size:15px;line-height:1.45;padding:4px 0 3px}.tap{display:block;font-weight:400}
.tap b{color:var(--a);padding-right:5px}.tap.b{color:inherit}.tap.b b{color:var(--b)}
.tap.a{color:inherit}.sub{font-size:12px;color:var(--dim)}.bar{display:block;width:100%;height:6px;
margin:5px 0}.fa,.xa.fa{fill:var(--a)}.fb{fill:var(--b)}.xa,.xb{fill:var(--alarm)}.ka,
.kb{fill:var(--skew)}.kt{fill:var(--alarm)}.kn{fill:var(--note)}.ks{fill:none;stroke:var(--ink);
stroke-width:1}.bar .ks{fill:var(--ink);stroke:none}.kc{fill:var(--ok)}.kd{fill:var(--deliv)}
.kcopy{fill:var(--ok);opacity:.55}.gr{stroke:var(--faint);fill:none;stroke-width:1;
vector-effect:non-scaling-stroke}.zl{stroke:var(--dim);fill:none;stroke-width:1;
vector-effect:non-scaling-stroke;opacity:.55}.lim{stroke:var(--ink);fill:none;stroke-width:1;
stroke-dasharray:4 3;vector-effect:non-scaling-stroke;opacity:.6}.si{fill:var(--sil)}
.nr{fill:var(--nr)}.st{fill:var(--st)}.ou{fill:var(--ou)}.mt{fill:var(--alarm)}
.g{display:block;width:100%;height:var(--h)}
.sl{stroke:var(--alarm);stroke-width:2;vector-effect:non-scaling-stroke;fill:none}.mk{width:11px;
height:11px;flex:none}.mk.t{fill:var(--alarm)}.mk.n{fill:var(--note)}.mk.s{fill:none;
stroke:var(--ink);stroke-width:1.6}.mk.c{fill:var(--ok)}.find{list-style:none;margin:0;padding:0;
columns:2;column-gap:34px}.find li{display:flex;gap:9px;align-items:baseline;padding:4px 0;
break-inside:avoid}.find .mk{position:relative;top:1px}.row{display:grid;
grid-template-columns:150px 1fr 150px;gap:12px;align-items:center;padding:2px 0}
.lb{text-align:right;line-height:1.2;font-weight:600;font-size:13px}.lb small,
.vl small{display:block;font-size:11px;color:var(--dim);font-weight:400;line-height:1.25}
.rl{font-weight:400;font-size:11px;margin-right:6px}.vl{font-size:13px;line-height:1.2}.vl i,
td i{padding:0 3px}.tl h4{font-size:12px;font-weight:600;color:var(--dim);margin:10px 0 3px 162px}
.none{color:var(--dim);font-size:12px;margin:3px 0 3px 162px}.ax{position:relative;height:17px;
border-top:1px solid var(--dim)}.ax b{position:absolute;top:2px;font-weight:400;font-size:11px;
color:var(--dim);transform:translateX(-50%);white-space:nowrap}.ax b:first-child{transform:none}
table{border-collapse:collapse;width:100%;font-size:13px}th{font-weight:600;font-size:12px;
text-align:left;vertical-align:bottom;padding:4px 8px;border-bottom:1.5px solid var(--ink)}
th small{display:block;font-size:10.5px}td{padding:2px 8px;border-bottom:1px solid var(--line);
white-space:nowrap}.r{text-align:right}.p{text-align:center}td.p .a,td.p .b{display:inline-block;
min-width:2.3em;text-align:right}td.p .b{text-align:left}td.fr .a,
td.fr .b{min-width:3.2em}td.id,.det .id{color:var(--dim)}.nm{font-weight:600}
.spk{width:210px;min-width:130px}.w{color:var(--alarm);font-weight:700}.ub{width:38px;height:6px;
margin-right:6px;background:var(--faint)}tr.clean .nm,tr.silent .nm{font-weight:400}
.scroll{overflow-x:auto;scrollbar-width:thin;background:
linear-gradient(90deg,var(--bg) 50%,transparent) 0 0/36px 100% no-repeat local,
linear-gradient(270deg,var(--bg) 50%,transparent) 100% 0/36px 100% no-repeat local,
linear-gradient(90deg,var(--dim),transparent) 0 0/14px 100% no-repeat scroll,
linear-gradient(270deg,var(--dim),transparent) 100% 0/14px 100% no-repeat scroll}
.scroll::-webkit-scrollbar{height:9px}.scroll::-webkit-scrollbar-thumb{background:var(--dim);
border-radius:5px}.wide{display:none}.rest{width:100%;display:block;margin-top:6px}.mh{font-size:13px;
font-weight:400;margin-top:14px}.ids{font-size:12px;color:var(--dim);margin-top:6px}
.det{background:var(--card);border:1px solid var(--line);border-radius:6px;
padding:12px 16px 8px 6px;margin-bottom:14px;break-inside:avoid}.det h3{font-size:15px;display:flex;
gap:8px;align-items:baseline;flex-wrap:wrap;margin:0 0 6px 14px}.det .id{font-weight:400;
font-size:13px}.pp{font-weight:400;font-size:12px;color:var(--dim);margin-left:auto}
.facts{font-size:12px;color:var(--dim);margin:2px 0 2px 162px}.lgs{columns:2;column-gap:34px}
.lg{break-inside:avoid;margin-bottom:14px}.lg h4{font-size:13px;border-bottom:1px solid var(--line);
margin-bottom:5px}dl{margin:0;display:grid;grid-template-columns:104px 1fr;gap:3px 10px;
font-size:12.5px}dt{font-weight:600}dd{margin:0}dd i{display:block;font-size:11.5px}
footer{border-top:1px solid var(--line);margin-top:22px;padding-top:8px;font-size:12px;
color:var(--dim)}@media screen and (max-width:1000px){body{padding:16px}
.tiles{grid-template-columns:repeat(2,1fr)}.find{columns:1}
.row{grid-template-columns:96px 1fr 116px;gap:8px}.lb small{font-size:10px}.none,.facts,
.tl h4{margin-left:104px}.rl{display:block}td,th{padding:2px 4px}table{font-size:11.5px}
th{font-size:11px}.spk{width:96px;min-width:80px}td.p .a,
td.p .b{min-width:0!important}td i{padding:0 1px}.ub{display:none}.lgs{columns:1}.pp{margin-left:0}
.wide{display:block;font-size:12px;color:var(--dim)}}
@media screen and (max-width:600px){.ax b:nth-child(even){display:none}}
@media print{@page{size:A4;margin:11mm}.tl .g{height:calc(var(--h)*.58)}
.det .g{height:calc(var(--h)*.8)}.sp{height:20px!important}header p{margin-top:1px}
.tiles{margin-top:8px}.find li{padding:1px 0}.tl h4{margin-top:3px;font-size:9px!important}
.mk{width:8px;height:8px}.det .id{font-size:9.5px!important}.tall .vl small{display:block!important;
margin:0!important}.lg h4{font-size:10px}.ax b{font-size:8px!important}:root{--bg:#fff}
body{padding:0;max-width:none;font-size:10.5px;print-color-adjust:exact;
-webkit-print-color-adjust:exact}.tiles{gap:6px}.tile{padding:5px 8px}.big{font-size:16px}
.big small{font-size:10px}.tile h3,.sub,.none,.facts{font-size:9px}.taps .big{font-size:10px}
.find{column-gap:16px;font-size:9.5px;columns:2}.lgs{columns:2}
.tiles{grid-template-columns:repeat(4,1fr)}.row{grid-template-columns:92px 1fr 88px;gap:6px}.lb,
.vl{font-size:9.5px}.lb small,.vl small,.rl{font-size:8px}.rl{display:inline}.tl .row{padding:0}
.tl .vl small{display:inline;margin:0 5px}.none,.facts,.tl h4{margin-left:98px}h2{font-size:13px;
margin:10px 0 4px}h2 small{font-size:9px}.tl{break-inside:avoid}table{font-size:8.5px}
th{font-size:8.5px}th small{font-size:7.5px}td,th{padding:1px 3px}.spk{width:90px;min-width:70px}
.ms{display:none}td.p .a,td.p .b{min-width:0!important}td i{padding:0 1px}.ub{display:none}
tr{break-inside:avoid}thead{display:table-header-group}.scroll{overflow:visible}dl{font-size:8.5px;
grid-template-columns:72px 1fr;gap:1px 8px}.lg{margin-bottom:7px}dd i{font-size:8px}
.pp{font-size:9px}.det h3{font-size:11.5px}.det{padding:6px 8px 4px 2px}footer{font-size:9px}
h2{break-inside:avoid;break-after:avoid}}"#;
