// The C interface at category 3: each entry is one call. Another category is this file with its own name in the next line,
// its own module in the calls and its own names in C.
ghost use Rattle.parameters.specs.Categories.{category3 as p};
ghost use Rattle.scheme.specs.Entries.{SamplesMatrix, SamplesExponents, SamplesMaskValues, SamplesFirstChallenges};
ghost use Rattle.scheme.specs.Entries.{SamplesSecondChallenge, MakesKey, Signs, Verifies, VerifiesRound};
ghost use Rattle.package.specs.Entries.{MakesFromLine, LoadsByStore};

// V, row by row.
#[unsafe(no_mangle)]
pub extern "C" fn gridprofile_category3_sample_matrix(block: &[u8], out: &mut [u8]) -> u8
    ensures { SamplesMatrix p block.now out.old result out.new }
{
    gridprofile::category3::entries().sample_matrix(block, out)
}

// Exponents: of the key, and e' of a round.
#[unsafe(no_mangle)]
pub extern "C" fn gridprofile_category3_sample_exponents(block: &[u8], out: &mut [u8]) -> u8
    ensures { SamplesExponents p block.now out.old result out.new }
{
    gridprofile::category3::entries().sample_exponents(block, out)
}

// The mask values u' of a round.
#[unsafe(no_mangle)]
pub extern "C" fn gridprofile_category3_sample_mask_values(block: &[u8], out: &mut [u8]) -> u8
    ensures { SamplesMaskValues p block.now out.old result out.new }
{
    gridprofile::category3::entries().sample_mask_values(block, out)
}

// The first challenges β, 1 to 126.
#[unsafe(no_mangle)]
pub extern "C" fn gridprofile_category3_sample_first_challenges(block: &[u8], out: &mut [u8]) -> u8
    ensures { SamplesFirstChallenges p block.now out.old result out.new }
{
    gridprofile::category3::entries().sample_first_challenges(block, out)
}

// The second challenge: 0 or 1 for each round.
#[unsafe(no_mangle)]
pub extern "C" fn gridprofile_category3_sample_second_challenge(block: &[u8], out: &mut [u8]) -> u8
    ensures { SamplesSecondChallenge p block.now out.old result out.new }
{
    gridprofile::category3::entries().sample_second_challenge(block, out)
}

// The public key of a private seed.
#[unsafe(no_mangle)]
pub extern "C" fn gridprofile_category3_make_key(private: &[u8], key: &mut [u8]) -> u8
    ensures { MakesKey p private.now key.old result key.new }
{
    gridprofile::category3::entries().make_key(private, key)
}

// The signature of a message.
#[unsafe(no_mangle)]
pub extern "C" fn gridprofile_category3_sign(
    private: &[u8],
    master: &[u8],
    salt: &[u8],
    msg: &[u8],
    sig: &mut [u8],
) -> u8
    ensures { Signs p private.now master.now salt.now msg.now
        sig.old result sig.new }
{
    gridprofile::category3::entries().sign(private, master, salt, msg, sig)
}

// Whether a signature is one of the message under the key.
#[unsafe(no_mangle)]
pub extern "C" fn gridprofile_category3_verify(key: &[u8], msg: &[u8], sig: &[u8]) -> u8
    ensures { Verifies p key.now msg.now sig.now result }
{
    gridprofile::category3::entries().verify(key, msg, sig)
}

// The round examiner: one round, given its challenges and commitments.
#[unsafe(no_mangle)]
pub extern "C" fn gridprofile_category3_verify_round(
    key: &[u8],
    salt: &[u8],
    i: u32,
    c0: &[u8],
    c1: &[u8],
    beta: u32,
    h: &[u8],
    challenge: u32,
    reply: &[u8],
) -> u8
    ensures { VerifiesRound p key.now salt.now i c0.now c1.now beta
        h.now challenge reply.now result }
{
    gridprofile::category3::entries().verify_round(key, salt, i, c0, c1, beta, h, challenge, reply)
}

// The package of the profile that a line means, and its length.
#[unsafe(no_mangle)]
pub extern "C" fn gridprofile_category3_make_package(
    table: &[u8],
    private: &[u8],
    master: &[u8],
    salt: &[u8],
    line: &[u8],
    out: &mut [u8],
    length: &mut usize,
) -> u8
    ensures { MakesFromLine p table.now private.now master.now salt.now
        line.now out.old length.old result out.new length.new }
{
    gridprofile::category3::entries().make_package(table, private, master, salt, line, out, length)
}

// Stores the profile of a package for a device, where its signature holds.
#[unsafe(no_mangle)]
pub extern "C" fn gridprofile_category3_load(
    store: &mut [u8],
    key: &[u8],
    sealed: &[u8],
    country: &[u8],
    class: u32,
    hertz: u32,
) -> u8
    ensures { LoadsByStore p key.now sealed.now country.now class hertz
        store.old result store.new }
{
    gridprofile::category3::entries().load(store, key, sealed, country, class, hertz)
}
