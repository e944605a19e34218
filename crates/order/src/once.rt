// Equal neighbours once, in place.
ghost use Rattle.std.specs.Prelude.{◌≤◌, length};
ghost use Rattle.order.specs.Once.{Dropped, Tidied};

// Of equal neighbours among the first `n` one is kept; how many are left. Behind them are zeros, up to place `n`.
pub fn drop(list: &mut [u32], n: usize) -> usize
    requires { n ≤ length list.old }
    ensures { Dropped list.old list.new n result }
{
    if n == 0 {
        return 0;
    }
    let mut last = list[0];
    let mut kept = 1;
    // By number: one place of the list is read while another is written.
    for i in 1..n {
        let x = list[i];
        list[i] = 0;
        if x != last {
            list[kept] = x;
            kept += 1;
            last = x;
        }
    }
    kept
}

// The first `n` in rising order, each once; how many are left. Behind them are zeros, up to place `n`.
pub fn tidy(list: &mut [u32], n: usize) -> usize
    requires { n ≤ length list.old }
    ensures { Tidied list.old list.new n result }
{
    crate::sort(&mut list[..n]);
    drop(list, n)
}
