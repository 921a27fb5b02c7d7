ghost use Rattle.std.specs.Prelude.{◌≡◌};

/// The answer, once the value is dropped. A function that ends in this call drops what it owns by one call, so that its
/// proof doesn't take the value apart at that place.
pub fn let_go<A, T: Drop>(answer: A, _value: T) -> A
    ensures { result ≡ answer }
{
    answer
}
