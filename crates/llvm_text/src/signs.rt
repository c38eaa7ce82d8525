//! What stands between operands, and names of operations.
ghost use Rattle.std.specs.Prelude.{◌≡◌, ◌≤◌, length};
ghost use Rattle.llvm_text.specs.Signs.{binary_sign, compare_name, cond_sign, exchange_name, offset_sign, order_name, swap_bits};

use isa_table::{Binary, Cond, Order, SwapWidth, Width};

pub fn binary_sign(op: Binary) -> &'static [u8]
    ensures text { result.now ≡ binary_sign op }
    ensures short { length result.now ≤ 6 }
{
    match op {
        Binary::Add => b" += ",
        Binary::Sub => b" -= ",
        Binary::Mul => b" *= ",
        Binary::Div => b" /= ",
        Binary::SDiv => b" s/= ",
        Binary::Or => b" |= ",
        Binary::And => b" &= ",
        Binary::Lsh => b" <<= ",
        Binary::Rsh => b" >>= ",
        Binary::Mod => b" %= ",
        Binary::SMod => b" s%= ",
        Binary::Xor => b" ^= ",
        Binary::Mov => b" = ",
        Binary::Arsh => b" s>>= ",
    }
}

pub fn cond_sign(cond: Cond) -> &'static [u8]
    ensures text { result.now ≡ cond_sign cond }
    ensures short { length result.now ≤ 6 }
{
    match cond {
        Cond::Eq => b" == ",
        Cond::Gt => b" > ",
        Cond::Ge => b" >= ",
        Cond::Set => b" & ",
        Cond::Ne => b" != ",
        Cond::SGt => b" s> ",
        Cond::SGe => b" s>= ",
        Cond::Lt => b" < ",
        Cond::Le => b" <= ",
        Cond::SLt => b" s< ",
        Cond::SLe => b" s<= ",
    }
}

pub fn order_name(order: Order) -> &'static [u8]
    ensures text { result.now ≡ order_name order }
    ensures short { length result.now ≤ 5 }
{
    match order {
        Order::Little => b"le",
        Order::Big => b"be",
        Order::Swapped => b"bswap",
    }
}

pub fn swap_bits(width: SwapWidth) -> &'static [u8]
    ensures text { result.now ≡ swap_bits width }
    ensures short { length result.now ≤ 2 }
{
    match width {
        SwapWidth::W16 => b"16",
        SwapWidth::W32 => b"32",
        SwapWidth::W64 => b"64",
    }
}

pub fn offset_sign(offset: i16) -> &'static [u8]
    ensures text { result.now ≡ offset_sign offset }
    ensures short { length result.now ≤ 3 }
{
    if offset < 0 { b" - " } else { b" + " }
}

pub fn exchange_name(width: Width) -> &'static [u8]
    ensures text { result.now ≡ exchange_name width }
    ensures short { length result.now ≤ 12 }
{
    match width {
        Width::W64 => b"xchg_64",
        Width::W32 => b"xchg32_32",
    }
}

pub fn compare_name(width: Width) -> &'static [u8]
    ensures text { result.now ≡ compare_name width }
    ensures short { length result.now ≤ 12 }
{
    match width {
        Width::W64 => b"cmpxchg_64",
        Width::W32 => b"cmpxchg32_32",
    }
}
