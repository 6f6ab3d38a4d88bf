// A call made over and over.

// Makes a call so often, every other time on what is given here, and then on what the call left of it. So puts and learns differ
// from one to the next, and of the others the compiler can't tell that they don't: it leaves none out.
pub fn repeat<T: Copy, F: Fn(&mut T, u32) -> u64>(count: u32, given: T, call: F) -> u64
    requires { F.IsAlwaysCallable call }
{
    let mut on = given;
    let mut sum: u64 = 0;
    for i in 0..count {
        if i % 2 == 0 {
            on = given;
        }
        sum = sum.wrapping_add(call(&mut on, i));
    }
    sum
}
