// Set-up's last pass over the filled area, and its inverse.
#![tactic(auto)]

ghost use Rattle.std.specs.Prelude.{◌≡◌, length};
ghost use Rattle.cipher.specs.declared.Cipher.TheVariants.{Hc128};
ghost use Rattle.cipher.specs.Numbers.{area_length};
ghost use Rattle.last_pass.specs.LastPass as LastPass;
ghost use Rattle.last_pass.specs.ByPlace.{changes_by_place};

use cipher::Cipher;
use runs::Change;

// What HC-128's pass makes at a step.
#[derive(Clone, Copy)]
struct Pass;

impl Change for Pass {
    ghost cipher_of = { λ x. Hc128 };

    ghost forth = { λ x. LastPass.change Hc128 };

    ghost back = { λ x. LastPass.change_back Hc128 };

    ghost by_place = { λ x. changes_by_place };

    fn cipher(self) -> Cipher {
        Cipher::Hc128
    }

    #[tactic(auto, unfolding(crate::specs::LastPass::change))]
    fn make(self, area: &mut [u32], i: usize) {
        let h = tables::filter(Cipher::Hc128, area, i);
        let k = tables::place(Cipher::Hc128, i);
        area[k] = tables::with_feedback(Cipher::Hc128, false, area, i, area[k]) ^ h;
    }

    #[tactic(auto, unfolding(crate::specs::LastPass::change_back))]
    fn undo(self, area: &mut [u32], i: usize) {
        let h = tables::filter(Cipher::Hc128, area, i);
        let k = tables::place(Cipher::Hc128, i);
        area[k] = tables::with_feedback(Cipher::Hc128, true, area, i, area[k] ^ h);
    }

    #[tactic(auto, using(runs::proofs::At::place_at), unfolding(crate::specs::LastPass::change))]
    fn make_in_run(self, area: &mut [u32], p: bool, k: usize) {
        let next = area[k + 1];
        let h = runs::filter(Cipher::Hc128, area, p, k);
        area[k] = runs::with_feedback(Cipher::Hc128, false, area, p, k, next, area[k]) ^ h;
    }

    #[tactic(auto, using(runs::proofs::At::place_at), unfolding(crate::specs::LastPass::change_back))]
    fn undo_in_run(self, area: &mut [u32], p: bool, k: usize, next: u32) -> u32 {
        let h = runs::filter(Cipher::Hc128, area, p, k);
        area[k] = runs::with_feedback(Cipher::Hc128, true, area, p, k, next, area[k] ^ h);
        area[k]
    }
}

// The whole pass.
#[tactic(auto, unfolding(crate::specs::LastPass::last_pass, crate::specs::LastPass::change))]
pub fn last_pass(cipher: Cipher, area: &mut [u32])
    requires { length area.old ≡ area_length cipher }
    ensures { area.new ≡ LastPass.last_pass cipher area.old }
{
    match cipher {
        Cipher::Hc128 => steps::advance_with(Pass, area, 0, 1024),
        Cipher::Hc256 => steps::advance(Cipher::Hc256, area, 0, 4096),
    }
}

// The whole pass undone.
#[tactic(auto, unfolding(crate::specs::LastPass::undo_last_pass, crate::specs::LastPass::change_back))]
pub fn undo_last_pass(cipher: Cipher, area: &mut [u32])
    requires { length area.old ≡ area_length cipher }
    ensures { area.new ≡ LastPass.undo_last_pass cipher area.old }
{
    match cipher {
        Cipher::Hc128 => steps::retreat_with(Pass, area, 0, 1024),
        Cipher::Hc256 => steps::retreat(Cipher::Hc256, area, 0, 4096),
    }
}
