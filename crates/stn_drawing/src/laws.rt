ghost use Rattle.std.specs.{Prelude.{◌≡◌, true, ℕ, List}, List.list_all};
ghost use Rattle.stn_drawing.specs.Escape.{are_named, is_plain, shown};

/// The law that a text is shown without a `<`, `>` or `"` and by bytes that ASCII prints, and that each `&` in it begins one
/// of the names `&amp;`, `&lt;`, `&gt;` and `&quot;`.
pub fn texts_are_escaped()
    ensures { (text : List ℕ) → (list_all is_plain (shown text) ≡ true) × (are_named (shown text) ≡ true) }
{}
