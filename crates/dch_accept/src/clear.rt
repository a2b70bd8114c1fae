ghost use Rattle.std.specs.Prelude.{◌≡◌, ◌≤◌, length, take, replicate};

/// Writes one value to the front of a list.
pub fn clear<T: Copy>(list: &mut [T], count: usize, value: T)
    requires { count ≤ length list.old }
    ensures front { take count list.new ≡ replicate count value }
    ensures rest { length list.new ≡ length list.old }
{
    for k in 0..count {
        list[k] = value;
    }
}
