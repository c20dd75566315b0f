//! What takes bytes.
ghost use Rattle.std.specs.Prelude.{◌-◌, ◌^◌, ◌<◌};
ghost use Rattle.tmpl_values.specs.Put.{Puts, IsPut};

/// What takes bytes: all of those of a put, or a beginning of them and the put fails.
///
/// Its meaning is the bytes put so far, which it may leave untold, and how many puts failed, which
/// it always tells. One that puts through a `&mut` tells the ghost name of that reference too, and
/// each put keeps it: so what stands after the reference afterwards is known to be what was put.
pub trait Put {
    type Fault: Drop;

    ghost so_far: { Self → Puts };

    /// Takes all the bytes, or fails and has taken a beginning of them.
    fn put(&mut self, bytes: &[u8]) -> Result<(), Self::Fault>
        requires { (so_far self.old).failures < 2 ^ 64 - 1 }
        ensures { IsPut result (so_far self.old) (so_far self.new) bytes.now };
}
