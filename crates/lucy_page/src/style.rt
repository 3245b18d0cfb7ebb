// How a page looks.

/// What stands in the `style` of a page beside that of its pictures, by light and by dark.
pub(crate) const PAGE: &str = "\
:root{color-scheme:light dark}
body{margin:0 auto;max-width:75rem;padding:1rem 1.5rem;font:15px/1.5 system-ui,sans-serif;color:#1f2328;background:#ffffff}
h1{font-size:1.5rem}
h2{margin-top:2.5rem;border-bottom:1px solid #d1d9e0}
nav a{margin-right:1rem}
a{color:#0969da}
pre{overflow-x:auto;padding:.75rem 1rem;border-radius:6px;background:#f6f8fa;font:13px/1.5 ui-monospace,SFMono-Regular,Menlo,Consolas,\"DejaVu Sans Mono\",monospace}
pre .def{color:inherit;font-weight:bold}
#text pre a{color:inherit;text-decoration-color:#8c959f;text-underline-offset:3px}
mark{color:#82071e;background:#ffd7d5}
:target{background:#fff8c5}
section:target{background:inherit}
.chart{display:flex;border:1px solid #d1d9e0;border-radius:6px}
.chart>svg{flex:none;border-right:1px solid #d1d9e0}
.across{overflow-x:auto;min-width:0}
.lucy{display:block}
.lucy a{color:#0969da}
.lucy .box{fill:#ffffff;stroke:#59636e}
.lucy .stream{fill:#ddf4ff;stroke:#0969da}
.lucy .buffer{fill:#fbefff;stroke:#8250df}
.lucy .call{fill:#dafbe1;stroke:#1a7f37}
.lucy .reads,.lucy .late,.lucy .tip{stroke:currentColor}
.lucy .late{stroke-dasharray:5 4}
table{border-collapse:collapse}
th,td{padding:.25rem .75rem;border-bottom:1px solid #d1d9e0;text-align:left}
@media(prefers-color-scheme:dark){
body{color:#e6edf3;background:#0d1117}
h2,.chart,.chart>svg,th,td{border-color:#3d444d}
a,.lucy a{color:#58a6ff}
pre{background:#161b22}
mark{color:#ffdcd7;background:#8e1519}
.lucy .box{fill:#0d1117;stroke:#9198a1}
.lucy .stream{fill:#0b2a4a;stroke:#58a6ff}
.lucy .buffer{fill:#271447;stroke:#bc8cff}
.lucy .call{fill:#0f2d18;stroke:#3fb950}
:target{background:#4d3800}
}
";
