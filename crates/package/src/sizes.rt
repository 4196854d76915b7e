// The sizes of packages, and of what making and opening one takes.
ghost use Rattle.std.specs.Prelude.{◌≡◌};
ghost use Rattle.outcome.specs.Answer.{first_refusal};
ghost use Rattle.outcome.specs.Result.{number_in};
ghost use Rattle.package.specs.Package.{make_sizes, open_sizes};

use outcome::Refusal;
use parameters::Category;
use profile::table::TABLE_SIZE;
use profile::{LONGEST, SHORTEST};

// The sizes of a table's image, of seeds and salt, and of what is lent for a package.
pub fn check_make(
    p: Category,
    table: &[u8],
    private: &[u8],
    master: &[u8],
    salt: &[u8],
    lent: usize,
) -> Result<(), Refusal>
    ensures { number_in result ≡ first_refusal (make_sizes p.sizes table.now private.now master.now
        salt.now lent) }
{
    if table.len() != TABLE_SIZE {
        return Err(Refusal::BadSize);
    }
    if private.len() != p.sizes.digest {
        return Err(Refusal::BadSize);
    }
    if master.len() != p.sizes.seed {
        return Err(Refusal::BadSize);
    }
    if salt.len() != p.sizes.digest {
        return Err(Refusal::BadSize);
    }
    if lent != scheme::signature_size(p) + LONGEST {
        return Err(Refusal::BadSize);
    }
    Ok(())
}

// The sizes of a key and of a package.
pub fn check_open(p: Category, key: usize, sealed: usize) -> Result<(), Refusal>
    ensures { number_in result ≡ first_refusal (open_sizes p.sizes key sealed) }
{
    if key != scheme::key_size(p) {
        return Err(Refusal::BadSize);
    }
    let size = scheme::signature_size(p);
    if sealed < size + SHORTEST {
        return Err(Refusal::BadSize);
    }
    if sealed > size + LONGEST {
        return Err(Refusal::BadSize);
    }
    Ok(())
}
