//! Why a run stopped, in words.
ghost use Rattle.std.specs.Prelude.{◌≡◌, ◌<◌, ◌^◌, ◌-◌, ◌++◌, decimal};
ghost use Rattle.tmpl_values.specs.Put.{IsPut};
ghost use Rattle.tmpl_values.specs.Quote.{quote};
ghost use Rattle.tmpl_meaning.specs.View.{cause_of};
ghost use Rattle.tmpl_engine.specs.Reason.{call_text, cause_text};

use itoa::Buffer;
use tmpl_funcs::CallFault;
use tmpl_meaning::RunFaultKind;
use tmpl_values::{Put, put_quoted};

/// Puts why a run failed, in words: what a line of the command says after the place.
pub fn put_reason<P: Put>(kind: &RunFaultKind<'_>, out: &mut P) -> Result<(), P::Fault>
    requires { (P.so_far out.old).failures < 2 ^ 64 - 1 }
    ensures { IsPut result (P.so_far out.old) (P.so_far out.new) (cause_text (cause_of kind.now)) }
{
    match *kind {
        RunFaultKind::StepsSpent(limit) => {
            put_limit(b"more than ", limit, out)?;
            out.put(b" steps")
        }
        RunFaultKind::NoField(name) => {
            put_named(b"no field ", name, out)?;
            out.put(b" here")
        }
        RunFaultKind::NoEntry(name) => put_named(b"no entry for key ", name, out),
        RunFaultKind::NoTemplate(name) => put_named(b"no template ", name, out),
        RunFaultKind::CallsTooDeep(limit) => put_limit(b"calls deeper than ", limit as u64, out),
        RunFaultKind::NotARange => out.put(b"can't range over this value"),
        RunFaultKind::NotAFunction => out.put(b"not a function"),
        RunFaultKind::NilCommand => out.put(b"nil is not a command"),
        RunFaultKind::Call(func, why) => {
            out.put(func.name().as_bytes())?;
            out.put(b": ")?;
            out.put(call_text(why).as_bytes())
        }
    }
}

/// Puts a name in its quotes after this.
fn put_named<P: Put>(before: &[u8], name: &[u8], out: &mut P) -> Result<(), P::Fault>
    requires { (P.so_far out.old).failures < 2 ^ 64 - 1 }
    ensures { IsPut result (P.so_far out.old) (P.so_far out.new) (before.now ++ quote name.now) }
{
    out.put(before)?;
    put_quoted(name, out)
}

/// Puts a number after this.
fn put_limit<P: Put>(before: &[u8], limit: u64, out: &mut P) -> Result<(), P::Fault>
    requires { (P.so_far out.old).failures < 2 ^ 64 - 1 }
    ensures { IsPut result (P.so_far out.old) (P.so_far out.new) (before.now ++ decimal limit) }
{
    out.put(before)?;
    let mut buffer = Buffer::new();
    out.put(buffer.format(limit).as_bytes())
}

/// Why a function refused its arguments, in words.
fn call_text(fault: CallFault) -> &'static str
    ensures { result.now ≡ call_text fault }
{
    match fault {
        CallFault::WrongCount => "wrong number of arguments",
        CallFault::WrongKind => "wrong kind of argument",
        CallFault::OutOfRange => "out of range",
        CallFault::NotComparable => "can't be compared",
        CallFault::FormatRefused => "format refused",
    }
}
