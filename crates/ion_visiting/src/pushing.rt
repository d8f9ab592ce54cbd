//! Pushing onto what mostly has room.
ghost use Rattle.std.specs.Prelude.{◌≡◌, ◌++◌, ◌∷◌, [], true};

/// Puts one item more behind the others, at once where there is room; `false` where memory was
/// refused.
#[inline(always)]
pub(crate) fn push<T: Copy + Drop>(items: &mut Vec<T>, item: T) -> bool
    ensures { result ≡ true → items.new.items ≡ items.old.items ++ item ∷ [] }
{
    if items.len() < items.capacity() {
        items.push_reserved(item);
        return true;
    }
    push_in_more(items, item)
}

#[cold]
#[inline(never)]
fn push_in_more<T: Copy + Drop>(items: &mut Vec<T>, item: T) -> bool
    ensures { result ≡ true → items.new.items ≡ items.old.items ++ item ∷ [] }
{
    items.push(item).is_ok()
}
