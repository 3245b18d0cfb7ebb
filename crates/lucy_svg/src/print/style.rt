// How pictures look.

/// What stands in the `style` of a picture of class `lucy`, by light and by dark.
pub const STYLE: &str = "\
.lucy{color:#1f2328;font:13px ui-monospace,SFMono-Regular,Menlo,Consolas,\"DejaVu Sans Mono\",monospace}
.lucy .paper{fill:#ffffff}
.lucy text{fill:currentColor}
.lucy .head{font-weight:bold}
.lucy .small{font-size:10px;fill-opacity:.8}
.lucy .count{font-size:10px;text-anchor:middle}
.lucy path,.lucy line{fill:none}
.lucy .rail{stroke:currentColor;stroke-opacity:.25}
.lucy .turn{stroke:currentColor;stroke-opacity:.7;stroke-dasharray:3 3}
.lucy .item{stroke:currentColor;stroke-width:9;stroke-linecap:round}
.lucy .join{stroke:currentColor;stroke-opacity:.6}
.lucy .stairs{stroke-width:1.5}
.lucy .in{stroke:#0969da}
.lucy .out{stroke:#bc4c00}
.lucy .waits{fill:#8250df;fill-opacity:.25;stroke:#8250df}
.lucy .full{fill:none;stroke:#8250df;stroke-width:1.5}
@media(prefers-color-scheme:dark){
.lucy{color:#e6edf3}
.lucy .paper{fill:#0d1117}
.lucy .in{stroke:#58a6ff}
.lucy .out{stroke:#f0883e}
.lucy .waits{fill:#bc8cff;stroke:#bc8cff}
.lucy .full{stroke:#bc8cff}
}
";
