ghost use Rattle.std.specs.Prelude.{◌≡◌};
ghost use Rattle.map_meaning.specs.Table.{has_kind, is_kind};
ghost use Rattle.script_types.specs.Names.{is_same_use};

use crate::typed::UsedAs;
use cell_values::Kind;
use map_meaning::Kinds;

/// Whether the kinds are the same.
pub fn is_kind(a: Kind, b: Kind) -> bool
    ensures { result ≡ is_kind a b }
{
    match (a, b) {
        (Kind::Boolean, Kind::Boolean) => true,
        (Kind::Nominal, Kind::Nominal) => true,
        (Kind::Ordinal, Kind::Ordinal) => true,
        (Kind::Scalar, Kind::Scalar) => true,
        (Kind::Directional, Kind::Directional) => true,
        (Kind::Ldd, Kind::Ldd) => true,
        _ => false,
    }
}

/// Whether the kind is one of these.
pub fn has_kind(kinds: Kinds, kind: Kind) -> bool
    ensures { result ≡ has_kind kinds kind }
{
    match kind {
        Kind::Boolean => kinds.boolean,
        Kind::Nominal => kinds.nominal,
        Kind::Ordinal => kinds.ordinal,
        Kind::Scalar => kinds.scalar,
        Kind::Directional => kinds.directional,
        Kind::Ldd => kinds.ldd,
    }
}

/// Whether the uses are one.
pub fn is_same_use(a: UsedAs, b: UsedAs) -> bool
    ensures { result ≡ is_same_use a b }
{
    match (a, b) {
        (UsedAs::Grid, UsedAs::Grid) => true,
        (UsedAs::Stack, UsedAs::Stack) => true,
        (
            UsedAs::Table { keys, kind },
            UsedAs::Table {
                keys: more,
                kind: other,
            },
        ) => keys == more && is_kind(kind, other),
        (UsedAs::Series { kind }, UsedAs::Series { kind: other }) => is_kind(kind, other),
        _ => false,
    }
}
