// Lists of rows or columns: in lines, and at random.
ghost use Rattle.std.specs.Prelude.{◌≤◌, ◌<◌};

// The cells in lines of a width, 2^step apart, again from the first after a period.
pub fn grid(rows: &mut [u32], columns: &mut [u32], period: usize, width: u32, step: u32)
    requires period { (1 ≤ period) × (period ≤ 65536) }
    requires lines { (1 ≤ width) × (step < 32) }
{
    for (i, (row, column)) in rows.iter_mut().zip(columns.iter_mut()).enumerate() {
        let cell = (i % period) as u32;
        *row = (cell / width) << step;
        *column = (cell % width) << step;
    }
}

// Rows or columns of a board of a height, from a seed: the numbers of a generator.
pub fn scatter(list: &mut [u32], height: u32, seed: u32)
    requires { height ≤ 31 }
{
    let mut x = seed;
    for place in list {
        x = ((x as u64 * 1103515245 + 12345) % 2147483648) as u32;
        *place = x >> (31 - height);
    }
}
