//! How the shapes of an SVG picture are drawn. All letters of its font are equally wide, 6.6 px in most, so that it is
//! known how much room a text takes.

ghost use Rattle.std.specs.Prelude.{◌≡◌};
ghost use Rattle.picture.specs.Style.{style};

/// The classes of shapes, an arrow's head, and the ground: what comes before all shapes.
pub fn style() -> &'static str
    ensures { result.now ≡ style }
{
    "<style>text{font:11px monospace}.n{text-anchor:end;fill:#777}.h{text-anchor:middle;font-weight:bold}.t{stroke:#fff;stroke-width:3px;paint-order:stroke}path{fill:none;stroke:#222;stroke-width:2px}.l{stroke:#ccc;stroke-width:1px}.a{stroke:#07c;marker-end:url(#h)}.g{stroke:#07c}.k{stroke:#c00}.p{fill:#222}.q{fill:#fff;stroke:#07c}.c{fill:#9bd}.s{fill:#ddd}.d{fill:#fbb}.o{fill:#8c8}.i{fill:#fb6}.w{fill:#fdb}.u{fill:#888}</style>\n<defs><marker id=\"h\" viewBox=\"0 0 8 8\" refX=\"8\" refY=\"4\" markerWidth=\"4\" markerHeight=\"4\" orient=\"auto\"><path class=\"g\" d=\"M0 0 8 4 0 8\"/></marker></defs>\n<rect width=\"100%\" height=\"100%\" fill=\"#fff\"/>\n"
}
