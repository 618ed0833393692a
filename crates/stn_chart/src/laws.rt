ghost use Rattle.std.specs.Prelude.{◌≡◌, ◌≢◌, ◌+◌, ◌≤◌, false, ℕ, ℤ, List, Option};
ghost use Rattle.stn_drawing.specs.Ticks.{place_on};
ghost use Rattle.stn_chart.specs.{Chart.{axis_for, is_open_in, latest_in, row_in, soonest_in}, Places.{height_of, line_left, line_width, row_height, row_top}};

/// The law that each of so many steps has a row of its own, and that each row lies within the picture.
pub fn steps_have_rows()
    ensures apart { (windows : List (ℤ × ℤ)) → (steps one other : ℕ) → 1 ≤ one → one ≤ steps → 1 ≤ other → other ≤ steps → one ≢ other
        → row_in windows steps one ≢ row_in windows steps other }
    ensures within { (windows : List (ℤ × ℤ)) → (steps step : ℕ) → 1 ≤ step → step ≤ steps
        → row_top (row_in windows steps step) + row_height ≤ height_of steps }
{}

/// The law that each event's soonest time, and its latest time unless it has none, stand on the axis, of a plan of so many steps.
pub fn times_are_on_the_axis()
    ensures soonest { (windows : List (ℤ × ℤ)) → (events event steps : ℕ) → (now : Option ℤ) → 1 ≤ event → event ≤ events
        → soonest_in windows event ≤ latest_in windows event
        → place_on (axis_for windows events now steps) (soonest_in windows event) ≤ line_left + line_width }
    ensures latest { (windows : List (ℤ × ℤ)) → (events event steps : ℕ) → (now : Option ℤ) → 1 ≤ event → event ≤ events
        → is_open_in windows event ≡ false
        → place_on (axis_for windows events now steps) (latest_in windows event) ≤ line_left + line_width }
{}
