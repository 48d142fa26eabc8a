// One of a list's entries.
ghost use Rattle.std.specs.Prelude.{◌≡◌, get_or};

// The entry at a place; `none` past the end.
pub fn entry_at<T: Copy>(entries: &[T], i: usize, none: T) -> T
    ensures { result ≡ get_or entries.now i none }
{
    entries.get(i).copied().unwrap_or(none)
}
