//! Values that own memory, made part by part, written over and let go by calls.

ghost use Rattle.std.specs.Prelude.{◌≡◌};

/// Lets a value go, as `drop` does, and is compiled in place. Of a value that goes out of scope each exit that it meets is a case
/// of the proof; this is one call, proved once for each type.
#[inline(always)]
pub fn let_go<T: Drop>(_value: T) {}

/// Writes a value in a place, and lets go what was there. Of a type that isn't known here that is one call, and not one for each
/// of its parts.
#[inline(always)]
pub fn write_over<T: Drop>(place: &mut T, value: T)
    ensures { place.new ≡ value }
{
    *place = value;
}

/// What was made; where it wasn't, what is owned is let go by [`let_go`], and the function ends with that error.
#[macro_export]
macro_rules! or_drop {
    ($made:expr, $($owned:ident),+) => {
        match $made {
            Ok(made) => made,
            Err(error) => {
                $($crate::let_go($owned);)+
                return Err(error);
            }
        }
    };
}

/// Makes a variant of an enum out of parts that are made in this order. Where one can't be made, those before it are let go by
/// [`let_go`], and the function ends with that error.
///
/// `part: result` is a part that owns something, `part = result` one that doesn't. Parts that are at hand stand first, as in a
/// struct expression, and end in a semicolon: `build_or_drop!(Reply::Got { flags: *flags; bytes: bytes.copy() })`.
#[macro_export]
macro_rules! build_or_drop {
    (@ $made:ident::$variant:ident [$($parts:tt)*] [$($owned:ident)*]) => {
        $made::$variant { $($parts)* }
    };
    (@ $made:ident::$variant:ident [$($parts:tt)*] [$($owned:ident)*] $part:ident: $result:expr $(, $($rest:tt)*)?) => {
        match $result {
            Ok($part) => $crate::build_or_drop!(@ $made::$variant [$($parts)* $part,] [$($owned)* $part] $($($rest)*)?),
            Err(fail) => {
                $($crate::let_go($owned);)*
                return Err(fail);
            }
        }
    };
    (@ $made:ident::$variant:ident [$($parts:tt)*] [$($owned:ident)*] $part:ident = $result:expr $(, $($rest:tt)*)?) => {
        match $result {
            Ok($part) => $crate::build_or_drop!(@ $made::$variant [$($parts)* $part,] [$($owned)*] $($($rest)*)?),
            Err(fail) => {
                $($crate::let_go($owned);)*
                return Err(fail);
            }
        }
    };
    ($made:ident::$variant:ident { $($part:ident $(: $value:expr)?),+; $($rest:tt)* }) => {
        $crate::build_or_drop!(@ $made::$variant [$($part $(: $value)?,)+] [] $($rest)*)
    };
    ($made:ident::$variant:ident { $($rest:tt)* }) => {
        $crate::build_or_drop!(@ $made::$variant [] [] $($rest)*)
    };
}
