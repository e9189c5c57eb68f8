//! Stretches of lists.
ghost use Rattle.std.specs.Prelude.{◌≡◌, take};
ghost use Rattle.run_chart.specs.Stretches.{within};

/// A stretch of a list.
#[derive(Clone, Copy)]
pub struct Stretch {
    /// Where it begins.
    pub from: usize,
    /// Where it ends: the place behind its last item.
    pub upto: usize,
}

/// At most so many items of a list, from its front.
pub(crate) fn front<T>(items: &[T], most: usize) -> &[T]
    ensures { result.now ≡ take most items.now }
{
    if items.len() <= most {
        return items;
    }
    let (front, _) = items.split_at(most);
    front
}

/// The items of a stretch, as far as the list has them.
pub(crate) fn within<T>(items: &[T], stretch: Stretch) -> &[T]
    ensures { result.now ≡ within stretch items.now }
{
    if stretch.from >= items.len() {
        return front(items, 0);
    }
    let (_, rest) = items.split_at(stretch.from);
    front(rest, stretch.upto.saturating_sub(stretch.from))
}
