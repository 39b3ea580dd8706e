// Layer view: the part of a wiring that holds one layer, or why there is none. Public calls: layer_view_refusal and layer_view.
#![tactic(auto)]

ghost use Rattle.std.specs.Prelude.{◌≡◌};
ghost use Rattle.view.specs.View.{view_refusal, view_start, view_length, view_part, OwnPart};

use grid::{Column, Layer, Track, area, index_of, is_grid, is_layer, layer_count, points};
use terms::{Refusal, refuse};

// Public call Layer view: its number and place.
pub fn layer_view_refusal(wiring: &[u8], n: Column, w: Track, k: Layer, layer: Layer) -> Refusal
    ensures { result ≡ view_refusal wiring.now n.0 w.0 k.0 layer.0 }
{
    if !is_grid(n, w, k) {
        return refuse(11, 0);
    }
    let size = points(n, w, k);
    if wiring.len() != size {
        return refuse(12, size);
    }
    if !is_layer(layer, k) {
        return refuse(16, layer_count(layer));
    }
    refuse(0, 0)
}

// Public call Layer view: its part of the wiring, empty where layer_view_refusal refuses. It is the wiring's own memory, not a copy.
pub fn layer_view(wiring: &[u8], n: Column, w: Track, k: Layer, layer: Layer) -> &[u8]
    ensures bytes { result.now ≡ view_part wiring.now n.0 w.0 k.0 layer.0 }
    ensures own { OwnPart wiring.entry (view_start wiring.now n.0 w.0 k.0 layer.0)
        (view_length wiring.now n.0 w.0 k.0 layer.0) result }
{
    let refusal = layer_view_refusal(wiring, n, w, k, layer);
    if refusal.number != 0 {
        return &wiring[..0];
    }
    let from = index_of(Column(1), Track(1), layer, n, w, k);
    let to = from + area(n, w);
    &wiring[from..to]
}
