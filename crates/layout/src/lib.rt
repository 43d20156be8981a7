// Words that an owner lends: parts of a state that lie one after the other in one slice.
#![tactic(auto)]

ghost use Rattle.std.specs.Prelude.{◌≡◌, cond, eqb, length};

// The words of `from` where those of `to` stand. If there are not as many, nothing is copied.
pub fn copy(to: &mut [u32], from: &[u32])
    ensures { to.new ≡ cond (eqb (length to.old) (length from.now)) from.now to.old }
{
    if to.len() != from.len() {
        return;
    }
    to.copy_from_slice(from);
}
