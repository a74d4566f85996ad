//! Cells of an array, which is a range of variables. An index outside of it reads 0 and writes nothing, so no index is
//! wrong.
ghost use Rattle.std.specs.Prelude.{◌≡◌, ◌+◌, ◌≤◌, length};
ghost use Rattle.warp_body.specs.Cell.{cell, with_cell};

/// The value of a cell of so many from a first variable on, 0 where there is none with this number.
#[inline(always)]
pub(crate) fn read_cell(vars: &[i64], first: u32, count: u32, index: i64) -> i64
    requires { first + count ≤ length vars.now }
    ensures { result ≡ cell vars.now first count index }
{
    if index < 0 || index >= i64::from(count) {
        return 0;
    }
    vars[first as usize + index as usize]
}

/// Sets a cell of so many from a first variable on; nothing where there is none with this number.
#[inline(always)]
pub(crate) fn write_cell(vars: &mut [i64], first: u32, count: u32, index: i64, value: i64)
    requires { first + count ≤ length vars.old }
    ensures cell { vars.new ≡ with_cell vars.old first count index value }
    ensures len { length vars.new ≡ length vars.old }
{
    if index >= 0 && index < i64::from(count) {
        vars[first as usize + index as usize] = value;
    }
}
