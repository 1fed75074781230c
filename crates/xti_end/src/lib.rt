//! One endpoint: the cell of its place, part by part, and the calls that touch no other cell.
#![tactic(auto)]

/// What was made; where it wasn't, what is owned is let go by calls, and the function ends.
macro_rules! or_drop {
    ($made:expr, $($owned:ident),+) => {
        match $made {
            Ok(made) => made,
            Err(fail) => {
                $(xti_base::let_go($owned);)+
                return Err(fail);
            }
        }
    };
}

/// Ends a call with the error of the first of these conditions that holds, if one does; and else with TLOOK, where the last tells an
/// event.
macro_rules! refuse {
    ($e:expr, $p:expr, $fd:expr;
        $($errno:ident if $condition:expr),+ $(; look $event:ident if $looks:expr)?) => {
        $(if $condition {
            return Ok(crate::answers::refused($e, $p, $fd, xti_base::Errno::$errno));
        })+
        $(if $looks {
            let event = xti_base::Event::$event;
            return Ok(crate::answers::done($e, $p, $fd, xti_model::Reply::Look { event }));
        })?
    };
}

/// Makes a step where what it takes is there. Where it isn't, the call is refused with TNODATA or waits.
macro_rules! once_there {
    ($e:expr, $p:expr, $fd:expr; $there:expr => $step:expr) => {
        if $there {
            $step
        } else if $e.nonblock() {
            Ok(crate::answers::refused($e, $p, $fd, xti_base::Errno::TNODATA))
        } else {
            Ok(xti_model::Applied::Blocked)
        }
    };
}

mod answers;
mod confirming;
mod datagrams;
mod endpoint;
mod fields;
mod indications;
mod listening;
mod lists;
mod local;
mod negotiating;
mod parts;
mod providers;
mod receiving;
mod receiving_data;
mod receiving_disconnects;
mod receiving_errors;
mod receiving_release;
mod showing;
mod streams;
mod values;

pub use endpoint::Endpoint;
pub use fields::{is_too_long, trimmed, trimmed_copy};
pub use indications::Ind;
pub use listening::{caller_address, is_listening};
pub use providers::{
    has_connections, has_datagrams, has_release, has_release_data, is_stream, profile,
    release_limit,
};
pub use receiving_disconnects::is_connected_or_asking;
