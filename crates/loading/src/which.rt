// Which of two: 0 is slot 1 or the front piece, 1 is slot 2 or the back piece. Any other number is question 4's no.
ghost use Rattle.std.specs.Prelude.{◌≡◌};
ghost use Rattle.refusal.specs.Refusal.{asked};
ghost use Rattle.loading.specs.Which.{ask_which};

use refusal::Refusal;

// Question 4: is `which` 0 or 1?
pub fn ask_which(which: u64) -> Result<(), Refusal>
    ensures { result ≡ asked (ask_which which) }
{
    if which <= 1 {
        return Ok(());
    }
    Err(Refusal::Argument)
}
