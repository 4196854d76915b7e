// Lent scratch for V: the block that it is drawn from, and V with room for the rest of its last group.
ghost use Rattle.std.specs.Prelude.{◌≡◌, ◌+◌, length};
ghost use Rattle.scheme.specs.Key.{matrix_count};

use parameters::Category;

#[derive(Drop)]
pub struct Scratch<'a> {
    pub category: Category,
    pub block: &'a mut [u8],
    pub vs: &'a mut [u8],
    pub ghost block_size: { length block.now ≡ category.sizes.matrix },
    pub ghost vs_size: { length vs.now ≡ matrix_count category.sizes + 8 },
}
