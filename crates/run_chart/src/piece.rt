//! The pieces of the text of a picture that are always the same.
ghost use Rattle.std.specs.Prelude.{◌≡◌};
ghost use Rattle.run_chart.specs.Pieces.{svg_open, svg_height, svg_font, title_line, bar_sign, cross_sign, moved_to, name_open, text_close, life_open, life_close, sample_close, arrow_open, arrow_row, circle_open, circle_row, words_open, class_open, turned_by, cross_path, circle_at, circle_close, bar_path, mark_end, arrow_tip};

/// The head of the text, up to its width.
#[tactic(auto, unfolding(crate::specs::Pieces::svg_open))]
pub(crate) fn svg_open() -> &'static [u8]
    ensures { result.now ≡ svg_open }
{
    b"<svg xmlns='http://www.w3.org/2000/svg' width='"
}

/// What stands before the height.
#[tactic(auto, unfolding(crate::specs::Pieces::svg_height))]
pub(crate) fn svg_height() -> &'static [u8]
    ensures { result.now ≡ svg_height }
{
    b"' height='"
}

/// What stands behind the height.
#[tactic(auto, unfolding(crate::specs::Pieces::svg_font))]
pub(crate) fn svg_font() -> &'static [u8]
    ensures { result.now ≡ svg_font }
{
    b"' font-family='sans-serif' font-size='9'>\n"
}

/// What a picture shows.
#[tactic(auto, unfolding(crate::specs::Pieces::title_line))]
pub(crate) fn title_line() -> &'static [u8]
    ensures { result.now ≡ title_line }
{
    b"<text x='20' y='20' font-size='13' font-weight='bold'>A run: a row an event, time downward</text>"
}

/// What a grey bar means.
#[tactic(auto, unfolding(crate::specs::Pieces::bar_sign))]
pub(crate) fn bar_sign() -> &'static [u8]
    ensures { result.now ≡ bar_sign }
{
    b"<g transform='translate(320,40)'><path class='out' d='M0-7h6v14h-6z'/><text x='12' y='3'>doesn't serve</text></g>"
}

/// What a cross means.
#[tactic(auto, unfolding(crate::specs::Pieces::cross_sign))]
pub(crate) fn cross_sign() -> &'static [u8]
    ensures { result.now ≡ cross_sign }
{
    b"<g transform='translate(420,40)' class='maps'><path d='M0 0L18 4M15 1l6 6M21 1l-6 6'/><text x='28' y='3'>never delivered</text></g>"
}

/// What begins a part that stands at a place.
#[tactic(auto, unfolding(crate::specs::Pieces::moved_to))]
pub(crate) fn moved_to() -> &'static [u8]
    ensures { result.now ≡ moved_to }
{
    b"<g transform='translate("
}

/// What stands before the name of a node.
#[tactic(auto, unfolding(crate::specs::Pieces::name_open))]
pub(crate) fn name_open() -> &'static [u8]
    ensures { result.now ≡ name_open }
{
    b",0)'><text y='84' text-anchor='middle' font-weight='bold'>"
}

/// What ends a text.
#[tactic(auto, unfolding(crate::specs::Pieces::text_close))]
pub(crate) fn text_close() -> &'static [u8]
    ensures { result.now ≡ text_close }
{
    b"</text>"
}

/// What begins a column's line.
#[tactic(auto, unfolding(crate::specs::Pieces::life_open))]
pub(crate) fn life_open() -> &'static [u8]
    ensures { result.now ≡ life_open }
{
    b"<line y1='90' y2='"
}

/// What ends it.
#[tactic(auto, unfolding(crate::specs::Pieces::life_close))]
pub(crate) fn life_close() -> &'static [u8]
    ensures { result.now ≡ life_close }
{
    b"' class='life'/></g>\n"
}

/// What ends a sample.
#[tactic(auto, unfolding(crate::specs::Pieces::sample_close))]
pub(crate) fn sample_close() -> &'static [u8]
    ensures { result.now ≡ sample_close }
{
    b"</text></g>"
}

/// What shows an arrow.
#[tactic(auto, unfolding(crate::specs::Pieces::arrow_open))]
pub(crate) fn arrow_open() -> &'static [u8]
    ensures { result.now ≡ arrow_open }
{
    b"'><line x2='22' marker-end='url(#tip)'/><text x='28' y='3'>"
}

/// The row of arrows in the legend.
#[tactic(auto, unfolding(crate::specs::Pieces::arrow_row))]
pub(crate) fn arrow_row() -> &'static [u8]
    ensures { result.now ≡ arrow_row }
{
    b",40)' class='"
}

/// What shows a circle.
#[tactic(auto, unfolding(crate::specs::Pieces::circle_open))]
pub(crate) fn circle_open() -> &'static [u8]
    ensures { result.now ≡ circle_open }
{
    b"'><circle r='3'/><text x='8' y='3'>"
}

/// The row of circles in the legend.
#[tactic(auto, unfolding(crate::specs::Pieces::circle_row))]
pub(crate) fn circle_row() -> &'static [u8]
    ensures { result.now ≡ circle_row }
{
    b",58)' class='"
}

/// What stands before what is written at a row.
#[tactic(auto, unfolding(crate::specs::Pieces::words_open))]
pub(crate) fn words_open() -> &'static [u8]
    ensures { result.now ≡ words_open }
{
    b"><text x='6' y='-2'>"
}

/// What stands before a class.
#[tactic(auto, unfolding(crate::specs::Pieces::class_open))]
pub(crate) fn class_open() -> &'static [u8]
    ensures { result.now ≡ class_open }
{
    b" class='"
}

/// What stands before the turn of a short arrow.
#[tactic(auto, unfolding(crate::specs::Pieces::turned_by))]
pub(crate) fn turned_by() -> &'static [u8]
    ensures { result.now ≡ turned_by }
{
    b"'><path transform='rotate("
}

/// A short arrow that ends in a cross.
#[tactic(auto, unfolding(crate::specs::Pieces::cross_path))]
pub(crate) fn cross_path() -> &'static [u8]
    ensures { result.now ≡ cross_path }
{
    b")' d='M0 0L18 4M15 1l6 6M21 1l-6 6'/>"
}

/// What stands before the place of a circle.
#[tactic(auto, unfolding(crate::specs::Pieces::circle_at))]
pub(crate) fn circle_at() -> &'static [u8]
    ensures { result.now ≡ circle_at }
{
    b"'><circle cx='-"
}

/// What ends a circle.
#[tactic(auto, unfolding(crate::specs::Pieces::circle_close))]
pub(crate) fn circle_close() -> &'static [u8]
    ensures { result.now ≡ circle_close }
{
    b"' r='3'/>"
}

/// A grey bar.
#[tactic(auto, unfolding(crate::specs::Pieces::bar_path))]
pub(crate) fn bar_path() -> &'static [u8]
    ensures { result.now ≡ bar_path }
{
    b" class='out'><path d='M-3-7h6v14h-6z'/>"
}

/// What ends a mark.
#[tactic(auto, unfolding(crate::specs::Pieces::mark_end))]
pub(crate) fn mark_end() -> &'static [u8]
    ensures { result.now ≡ mark_end }
{
    b"</g>\n"
}

/// What ends an arrow.
#[tactic(auto, unfolding(crate::specs::Pieces::arrow_tip))]
pub(crate) fn arrow_tip() -> &'static [u8]
    ensures { result.now ≡ arrow_tip }
{
    b"' marker-end='url(#tip)'/>"
}
