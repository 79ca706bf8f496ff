ghost use Rattle.std.specs.Prelude.{◌≡◌, slice_get, option_copied};

/// The item at a number, as one equation.
pub fn item_at<T>(items: &[T], at: usize) -> Option<&T>
    ensures { option_copied result ≡ slice_get items.now at }
{
    items.get(at)
}
