//! The parts of the template that never vary.

/// The head, as far as the line that tells browsers to read the page again.
pub(crate) const HEAD: &str = "<!DOCTYPE html>
<html lang=\"en\">
<head>
<meta charset=\"utf-8\">
<meta http-equiv=\"Content-Security-Policy\" content=\"default-src 'none'; style-src 'unsafe-inline'; img-src \
    data:; base-uri 'none'; form-action 'none'\">
<meta name=\"viewport\" content=\"width=device-width, initial-scale=1\">
<meta name=\"color-scheme\" content=\"light dark\">
<meta name=\"referrer\" content=\"no-referrer\">
";

/// What stands before the title.
pub(crate) const TITLE: &str = "<title>";

/// What stands between the title and the colour of the tab's dot.
pub(crate) const ICON: &str = "</title>
<link rel=\"icon\" href=\"data:image/svg+xml,%3Csvg xmlns='http://www.w3.org/2000/svg' viewBox='0 0 8 \
    8'%3E%3Crect width='8' height='8' rx='2' fill='%23";

/// What stands between that colour and the style.
pub(crate) const STYLE: &str = "'/%3E%3C/svg%3E\">
<style>
";

/// The style.
pub(crate) const CSS: &str =
    ":root{--bg:#f7f8fa;--card:#fff;--fg:#1c232b;--dim:#56616d;--line:#8a96a3;--rule:#dde2e8;--link:#0b5cad;
--held:#c8321f;--res:#2f3b47;--edge:#2f3b47;--pin:#6b3fc4;--mark:#fff3c4}
@media(prefers-color-scheme:dark){:root{--bg:#14181d;--card:#1c2229;--fg:#e6eaee;--dim:#a3aeba;--line:#6d7986;
--rule:#303841;--link:#7cb8ff;--held:#ff7a66;--res:#33404d;--edge:#5d6b7a;--pin:#b79cff;--mark:#4a3f14}}
*{box-sizing:border-box}
body{margin:0 auto;padding:0 20px 40px;max-width:1800px;background:var(--bg);color:var(--fg);
font:15px/1.45 system-ui,-apple-system,\"Segoe UI\",Roboto,\"DejaVu Sans\",sans-serif}
a{color:var(--link);text-decoration:none}a:hover{text-decoration:underline}
:focus-visible{outline:3px solid var(--link);outline-offset:2px}
code,h3,ol,svg text,th[scope],caption{font-family:ui-monospace,\"SF Mono\",Menlo,Consolas,\"DejaVu Sans Mono\",
\"Liberation Mono\",monospace}
code{font-size:.9em}
h1,h2,h3,p,ul,ol{margin:0;padding:0}li{list-style:none}
h1,h3,code,td,caption,li,article p{overflow-wrap:anywhere}h1,h3,code,th,td,caption,li,a{unicode-bidi:isolate}
th[scope]{overflow-wrap:anywhere;min-width:100px}
.skip{position:absolute;left:-999px}.skip:focus{left:8px;top:4px;background:var(--bg);padding:4px 8px}
header{display:flex;flex-wrap:wrap;align-items:center;gap:8px 18px;padding:16px 0}
h1{font-size:22px;line-height:1.2}
h2{font-size:16px;margin:30px 0 10px}
header p{margin-left:auto;color:var(--dim);font-size:13px}
header .now{order:1;width:100%;padding:4px 10px;border-left:5px solid #fad43b;background:var(--card);color:inherit;
overflow-wrap:anywhere}
.sum{display:flex;flex-wrap:wrap;gap:6px}.w{border:1px solid var(--line)}.sum li{padding:2px 10px;
border-radius:4px;font-size:13px}
.s{background:#11c560;fill:#11c560;color:#062}.f{background:#d23c28;fill:#d23c28;color:#fff}
.e{background:#f5a623;fill:#f5a623;color:#000}.a{background:#8b572a;fill:#8b572a;color:#fff}
.r{background:#fad43b;fill:#fad43b;color:#000}.n{background:#b4bbc3;fill:#b4bbc3;color:#000}
.o{background:var(--res);fill:var(--res);color:#fff}
.s,.s a{color:#002a10}
.pic{overflow:auto;background:var(--card);border:1px solid var(--rule);border-radius:8px;text-align:center}
.pic>svg{display:block;width:100%;height:auto;margin:0 auto}
svg path{fill:none;stroke:var(--line);stroke-width:1.6}
.d path,.k path,.c path{stroke-dasharray:5 4}
.h path,.k path{stroke:var(--held);stroke-width:2.4}
.b path,.c path{marker-end:url(#m)}
marker path{fill:var(--line);stroke:none}
svg text{font-size:13px;text-anchor:middle;white-space:pre;stroke:none;fill:#000;unicode-bidi:isolate}
.f text,.a text,.o text,.q text,.i text{fill:#fff}
svg svg rect{width:100%;height:100%;rx:4px}svg text+text{font-size:11px}
.o rect{stroke:var(--edge)}.q{fill:var(--res);color:#fff}.q rect{stroke:var(--pin);stroke-width:5}
.i svg rect{fill:var(--res);stroke:none;rx:0}.i text{font-size:11px}
.pic a:hover rect{fill-opacity:.85}.pic a:focus-visible{outline:none}.pic a:focus-visible rect{stroke:var(--fg);
stroke-width:5}
.key{display:flex;flex-wrap:wrap;gap:5px 8px;margin:10px 2px;color:var(--dim);font-size:12px;line-height:18px}
.key b{padding:0 7px;border-radius:3px;font-weight:400}.key i{font-style:normal;margin-left:8px}
.key .q{background:var(--res);color:#fff;border:2px solid var(--pin);line-height:14px}
.key i:before{content:\"\";display:inline-block;width:26px;border-top:2px solid var(--line);margin-right:6px;
vertical-align:4px}.key .d:before{border-top-style:dashed}.key .h:before{border-color:var(--held)}
.why li{background:var(--card);border:1px solid var(--rule);border-left:5px solid var(--line);border-radius:4px;
padding:6px 12px;margin-bottom:5px}
.why .x{border-left-color:var(--held)}.why .p{border-left-color:var(--pin)}.why .r{border-left-color:#fad43b;
background:var(--card);color:inherit}
.ok{margin:22px 2px 0;font-weight:600}
.none{padding:40px;text-align:center;color:var(--dim)}
article{display:grid;grid-template-columns:minmax(0,1fr) 660px;gap:2px 20px;align-items:center;padding:8px 0;
border-top:1px solid var(--rule)}
h3{justify-self:start;font-size:14px;padding:2px 8px;border-radius:4px}
article p{grid-row:2;font-size:13px;color:var(--dim)}
ol{grid-row:1/3;grid-column:2;display:flex;flex-wrap:wrap;gap:2px;font-size:12px;line-height:17px}
ol li{min-width:31px;text-align:center;border-radius:3px}ol a{display:block;color:inherit}
ol li:after{display:block;font-size:10px;line-height:11px}
ol .s:after{content:\"s\";content:\"s\" / \"succeeded\"}.key .s:before{content:\"s\";content:\"s\" / \"\"}
ol .f:after{content:\"f\";content:\"f\" / \"failed\"}.key .f:before{content:\"f\";content:\"f\" / \"\"}
ol .e:after{content:\"e\";content:\"e\" / \"errored\"}.key .e:before{content:\"e\";content:\"e\" / \"\"}
ol .a:after{content:\"a\";content:\"a\" / \"aborted\"}.key .a:before{content:\"a\";content:\"a\" / \"\"}
ol .r:after{content:\"r\";content:\"r\" / \"running\"}.key .r:before{content:\"r\";content:\"r\" / \"\"}
.key b:before{margin-right:5px;font-weight:700}
ol li:has(a:hover){outline:2px solid var(--fg)}
.wide{overflow-x:auto}
table{border-collapse:collapse;width:100%;font-size:13px}
th,td{padding:5px 10px 5px 8px;text-align:left;vertical-align:top;border-top:1px solid var(--rule)}
thead th{overflow-wrap:normal;color:var(--dim);font-weight:400;border:0}
th i{color:var(--dim);font-weight:400;font-style:normal;font-size:12px}
td.pin{color:var(--pin)}
.note{font-size:13px;color:var(--dim)}
caption{text-align:left;font-weight:700;padding:14px 0 4px}
.ev table{display:block;overflow-x:auto}.ev td{font:12px/1.6 ui-monospace,\"SF Mono\",Menlo,Consolas,
\"DejaVu Sans Mono\",monospace}.ev th,.ev td{white-space:nowrap}.ev td:last-child{width:99%;white-space:normal;
min-width:200px}.ev th{font-weight:400;border-top:2px solid var(--bg);border-radius:4px}
.ev tr:first-child th{padding-bottom:2px;font-size:12px;color:var(--dim);border:0}
:target{background:var(--mark)}th:target,tr:target td{background:var(--mark)}
@media(max-width:1100px){body{padding:0 10px 30px}article{grid-template-columns:minmax(0,1fr)}ol{grid-row:auto;
grid-column:1}header p{margin:0}header .now{order:0}}
.pic .r rect{stroke:var(--fg);stroke-width:4;stroke-dasharray:9 6}
@media(prefers-reduced-motion:no-preference){.pic .r rect{animation:p 1.5s linear infinite}
@keyframes p{to{stroke-dashoffset:-30}}}
details{margin-top:8px}summary{cursor:pointer;padding:4px 2px;color:var(--link)}
details[open] summary{margin-bottom:8px}
@media(forced-colors:active){.sum li,ol li,h3,.key b{border:1px solid}.pic{forced-color-adjust:none}}
@media print{
:root{--bg:#fff;--card:#fff;--fg:#000;--dim:#444;--line:#666;--rule:#bbb;--link:#000;--edge:#000;--pin:#6b3fc4;
--held:#c8321f}
*{print-color-adjust:exact}
body{max-width:none;padding:0;font-size:11px}
.pic{overflow:visible;border:0}.pic>svg{min-width:0!important}
article,tr,.why li{break-inside:avoid}h2{break-after:avoid}
.ev table,.wide{overflow:visible}details::details-content{content-visibility:visible;block-size:auto}
}
";

/// What stands between the style and the body.
pub(crate) const BODY: &str = "</style>
</head>
<body>
";

/// The link that leads over the picture.
pub(crate) const SKIP: &str = "<a class=skip href=#key>Skip the picture</a>";

/// What the colours and lines of the picture mean.
pub(crate) const LEGEND: &str =
    "<p class=\"key\" id=\"key\"><b class=\"s\">succeeded</b> <b class=\"f\">failed</b> <b class=\"e\">\
    errored</b> <b class=\"a\">aborted</b> <b class=\"r\">running</b> <b class=\"n\">no builds</b> <b \
    class=\"o\">resource</b> <b class=\"q\">pinned</b> <i>a new version makes a build</i> <i \
    class=\"d\">it doesn’t</i> <i class=\"h\">a newer version failed there</i></p>
";

/// Where the table of resources begins.
pub(crate) const RESOURCES: &str =
    "<section aria-labelledby=hr><h2 id=\"hr\">Resources</h2><div class=wide>\
    <table><thead><tr><th>resource</th><th>newest version</th><th>versions</th><th>held</th></tr></thead>\
    <tbody>\n";

/// Where the builds begin, as far as how many of each job have a row.
pub(crate) const BUILDS: &str =
    "<section class=ev aria-labelledby=hb><h2 id=\"hb\">Builds, and what they took</h2>\
    <p class=note>The newest ";

/// What is said of the builds behind that number.
pub(crate) const NOTE: &str = " of each job, and its newest that succeeded. \
    <code>ccr_run certify JOB N | ccr_verify</code> checks what a build took.</p>";

/// What a page says without a pipeline.
pub(crate) const UNSET: &str = "<p class=none>No pipeline is set. \
    <code>ccr_run --db FILE set-pipeline PIPELINE.json</code> sets one.</p>\n";

/// What a page says of a pipeline without jobs and resources.
pub(crate) const EMPTY: &str = "<p class=none>The pipeline has no jobs and no resources.</p>\n";

/// Where the picture's section begins.
pub(crate) const SECTION: &str = "<section aria-label=\"Picture\">\
    <div class=pic tabindex=\"0\" role=\"region\" aria-label=\"Picture of the pipeline\">";

/// What stands between the picture's size and the number of its jobs.
pub(crate) const PICTURE: &str = "px\" role=\"group\" aria-labelledby=\"pt pd\">\
    <title id=\"pt\">The pipeline</title><desc id=\"pd\">";

/// What stands between the number of its resources and its lines.
pub(crate) const ARROWHEAD: &str =
    " resources, from left to right. The lists below say the same in words.</desc><defs>\
    <marker id=\"m\" viewBox=\"0 0 8 8\" refX=\"7\" refY=\"4\" markerWidth=\"7\" markerHeight=\"7\" \
    orient=\"auto\">\
    <path d=\"M0 0L8 4L0 8z\"/></marker></defs><g aria-hidden=\"true\">";

/// The end of a page.
pub(crate) const END: &str = "</main>\n</body>\n</html>\n";

/// Where the jobs that stand still begin.
pub(crate) const STILL: &str =
    "<section aria-labelledby=hs><h2 id=\"hs\">What stands still, and why</h2>";

/// Where the jobs that go on by themselves begin.
pub(crate) const GOING: &str =
    "<section aria-labelledby=hg><h2 id=\"hg\">What runs, or goes on by itself</h2>";

/// Where the jobs begin.
pub(crate) const JOBS: &str =
    "<section aria-labelledby=hj><h2 id=\"hj\">Jobs, with their last 20 builds</h2>";
