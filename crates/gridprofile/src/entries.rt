// The entries at the sizes of a category: each lends scratch, arrays on the stack at these sizes, and makes one call. The
// lengths of the arrays are const parameters, since Rattle computes none from another; a category's are in its module.
ghost use Rattle.std.specs.Prelude.{◌≡◌, ◌+◌, ◌*◌};
ghost use Rattle.scheme.specs.Key.{key_size, matrix_count};
ghost use Rattle.signer.specs.InnerState.{state_size};

use expand::numbers;
use expand::scratch::Scratch;
use outcome::{number_in, store_length};
use parameters::{Category, DRAWN_PLACES, DRAWN_ROUNDS, ROUNDS};
use profile::Profile;
use sampling::entry::{sample_into, shuffle_into};
use signer::scratch::SignScratch;

// A block for V, V with the rest of its last group, the seeds of all rounds, what is kept of them, and a public key.
#[derive(Clone, Copy)]
pub struct Entries<
    const BLOCK: usize,
    const MATRIX: usize,
    const SEEDS: usize,
    const STATES: usize,
    const KEY: usize,
> {
    pub category: Category,
    pub ghost block: { BLOCK ≡ category.sizes.matrix },
    pub ghost matrix: { MATRIX ≡ matrix_count category.sizes + 8 },
    pub ghost seeds: { SEEDS ≡ category.sizes.t * category.sizes.seed },
    pub ghost states: { STATES ≡ category.sizes.t * state_size category.sizes },
    pub ghost key: { KEY ≡ key_size category.sizes },
}

impl<
    const BLOCK: usize,
    const MATRIX: usize,
    const SEEDS: usize,
    const STATES: usize,
    const KEY: usize,
> Entries<BLOCK, MATRIX, SEEDS, STATES, KEY> {
    ghost use Rattle.scheme.specs.Entries.{SamplesMatrix, SamplesExponents, SamplesMaskValues, SamplesFirstChallenges};
    ghost use Rattle.scheme.specs.Entries.{SamplesSecondChallenge, MakesKey, Signs, Verifies, VerifiesRound};
    ghost use Rattle.package.specs.Entries.{MakesPackage, MakesFromLine, LoadsByStore};

    // V, row by row.
    pub fn sample_matrix(&self, block: &[u8], out: &mut [u8]) -> u8
        ensures { SamplesMatrix self.now.category.sizes block.now out.old result out.new }
    {
        let mut scratch = [0u8; MATRIX];
        let draw = numbers::matrix(self.category);
        number_in(sample_into(out, &mut scratch, block, draw))
    }

    // Exponents: of the key, and e' of a round.
    pub fn sample_exponents(&self, block: &[u8], out: &mut [u8]) -> u8
        ensures { SamplesExponents self.now.category.sizes block.now out.old result out.new }
    {
        let mut scratch = [0u8; DRAWN_PLACES];
        let draw = numbers::exponents(self.category.sizes);
        number_in(sample_into(out, &mut scratch, block, draw))
    }

    // The mask values u' of a round.
    pub fn sample_mask_values(&self, block: &[u8], out: &mut [u8]) -> u8
        ensures { SamplesMaskValues self.now.category.sizes block.now out.old result out.new }
    {
        let mut scratch = [0u8; DRAWN_PLACES];
        let draw = numbers::mask_values(self.category.sizes);
        number_in(sample_into(out, &mut scratch, block, draw))
    }

    // The first challenges β, 1 to 126.
    pub fn sample_first_challenges(&self, block: &[u8], out: &mut [u8]) -> u8
        ensures { SamplesFirstChallenges self.now.category.sizes block.now out.old result out.new }
    {
        let mut scratch = [0u8; DRAWN_ROUNDS];
        let draw = numbers::first_challenges(self.category.sizes);
        number_in(sample_into(out, &mut scratch, block, draw))
    }

    // The second challenge: 0 or 1 for each round.
    pub fn sample_second_challenge(&self, block: &[u8], out: &mut [u8]) -> u8
        ensures { SamplesSecondChallenge self.now.category.sizes block.now out.old result out.new }
    {
        let sizes = self.category.sizes;
        let mut scratch = [0u8; ROUNDS];
        let positions = &mut scratch[..sizes.t];
        number_in(shuffle_into(out, positions, block, sizes.second, sizes.w))
    }

    // The public key of a private seed.
    pub fn make_key(&self, private: &[u8], key: &mut [u8]) -> u8
        ensures { MakesKey self.now.category.sizes private.now key.old result key.new }
    {
        let mut block = [0u8; BLOCK];
        let mut vs = [0u8; MATRIX];
        let mut scratch = Scratch {
            category: self.category,
            block: &mut block,
            vs: &mut vs,
        };
        number_in(keygen::make_key(private, &mut scratch, key))
    }

    // The signature of a message.
    pub fn sign(&self, private: &[u8], master: &[u8], salt: &[u8], msg: &[u8], sig: &mut [u8]) -> u8
        ensures { Signs self.now.category.sizes private.now master.now salt.now msg.now
            sig.old result sig.new }
    {
        let mut block = [0u8; BLOCK];
        let mut vs = [0u8; MATRIX];
        let mut seeds = [0u8; SEEDS];
        let mut states = [0u8; STATES];
        let mut scratch = SignScratch {
            category: self.category,
            block: &mut block,
            vs: &mut vs,
            seeds: &mut seeds,
            states: &mut states,
        };
        number_in(signer::sign::sign(private, master, salt, msg, &mut scratch, sig))
    }

    // Whether a signature is one of the message under the key.
    pub fn verify(&self, key: &[u8], msg: &[u8], sig: &[u8]) -> u8
        ensures { Verifies self.now.category.sizes key.now msg.now sig.now result }
    {
        let mut block = [0u8; BLOCK];
        let mut vs = [0u8; MATRIX];
        let mut scratch = Scratch {
            category: self.category,
            block: &mut block,
            vs: &mut vs,
        };
        number_in(verifier::verify::verify(key, msg, sig, &mut scratch))
    }

    // The round examiner: one round, given its challenges and commitments.
    pub fn verify_round(
        &self,
        key: &[u8],
        salt: &[u8],
        i: u32,
        c0: &[u8],
        c1: &[u8],
        beta: u32,
        h: &[u8],
        challenge: u32,
        reply: &[u8],
    ) -> u8
        ensures { VerifiesRound self.now.category.sizes key.now salt.now i c0.now c1.now beta
            h.now challenge reply.now result }
    {
        let mut block = [0u8; BLOCK];
        let mut vs = [0u8; MATRIX];
        let mut scratch = Scratch {
            category: self.category,
            block: &mut block,
            vs: &mut vs,
        };
        number_in(verifier::verify_round::verify_round(
            key,
            salt,
            i,
            c0,
            c1,
            beta,
            h,
            challenge,
            reply,
            &mut scratch,
        ))
    }

    // The package of the profile that a line means, and its length.
    pub fn make_package(
        &self,
        table: &[u8],
        private: &[u8],
        master: &[u8],
        salt: &[u8],
        line: &[u8],
        out: &mut [u8],
        length: &mut usize,
    ) -> u8
        ensures { MakesFromLine self.now.category.sizes table.now private.now master.now salt.now
            line.now out.old length.old result out.new length.new }
    {
        let mut block = [0u8; BLOCK];
        let mut vs = [0u8; MATRIX];
        let mut seeds = [0u8; SEEDS];
        let mut states = [0u8; STATES];
        let mut scratch = SignScratch {
            category: self.category,
            block: &mut block,
            vs: &mut vs,
            seeds: &mut seeds,
            states: &mut states,
        };
        let made = package::make::make_from_line(
            table,
            private,
            master,
            salt,
            line,
            &mut scratch,
            out,
        );
        store_length(made, length)
    }

    // Stores the profile of a package for a device, where its signature holds.
    pub fn load(
        &self,
        store: &mut [u8],
        key: &[u8],
        sealed: &[u8],
        country: &[u8],
        class: u32,
        hertz: u32,
    ) -> u8
        ensures { LoadsByStore self.now.category.sizes key.now sealed.now country.now class hertz
            store.old result store.new }
    {
        let mut block = [0u8; BLOCK];
        let mut vs = [0u8; MATRIX];
        let mut scratch = Scratch {
            category: self.category,
            block: &mut block,
            vs: &mut vs,
        };
        number_in(package::load::load(store, key, sealed, country, class, hertz, &mut scratch))
    }

    // The package of a profile, and its length, for callers that hold one; C does not see it.
    pub fn make_profile_package(
        &self,
        table: &[u8],
        private: &[u8],
        master: &[u8],
        salt: &[u8],
        profile: Profile,
        out: &mut [u8],
        length: &mut usize,
    ) -> u8
        ensures { MakesPackage self.now.category.sizes table.now private.now master.now salt.now
            profile out.old length.old result out.new length.new }
    {
        let mut block = [0u8; BLOCK];
        let mut vs = [0u8; MATRIX];
        let mut seeds = [0u8; SEEDS];
        let mut states = [0u8; STATES];
        let mut scratch = SignScratch {
            category: self.category,
            block: &mut block,
            vs: &mut vs,
            seeds: &mut seeds,
            states: &mut states,
        };
        let made = package::make::make_package(
            table,
            private,
            master,
            salt,
            profile,
            &mut scratch,
            out,
        );
        store_length(made, length)
    }
}
