ghost use Rattle.std.specs.Prelude.{◌≡◌};
ghost use Rattle.logic.specs.Logic.{Logic, Laws};

// A logic family: a type of values with its operations, which show the laws.
pub trait Family {
    type Value: Copy;

    // All operations of the family, as one record.
    ghost logic: { Logic Self.Value };

    fn unset() -> Self::Value
        ensures { result ≡ logic.unset };

    fn pull_up() -> Self::Value
        ensures { result ≡ logic.up };

    fn pull_down() -> Self::Value
        ensures { result ≡ logic.down };

    fn not(a: Self::Value) -> Self::Value
        ensures { result ≡ logic.not a };

    fn and(a: Self::Value, b: Self::Value) -> Self::Value
        ensures { result ≡ logic.and a b };

    fn or(a: Self::Value, b: Self::Value) -> Self::Value
        ensures { result ≡ logic.or a b };

    fn xor(a: Self::Value, b: Self::Value) -> Self::Value
        ensures { result ≡ logic.xor a b };

    fn tri(data: Self::Value, enable: Self::Value) -> Self::Value
        ensures { result ≡ logic.tri «data» enable };

    fn resolve(a: Self::Value, b: Self::Value) -> Self::Value
        ensures { result ≡ logic.resolve a b };

    // Whether b refines a.
    fn refines(b: Self::Value, a: Self::Value) -> bool
        ensures { result ≡ logic.refines b a };

    fn definite(a: Self::Value) -> bool
        ensures { result ≡ logic.definite a };

    fn code(a: Self::Value) -> u16
        ensures { result ≡ logic.code a };

    // The value of a code, if any.
    fn of_code(code: u16) -> Option<Self::Value>
        ensures { result ≡ logic.of_code code };

    ghost laws: { Laws logic };
}
