// Numbers in the order of their keys.
ghost use Rattle.std.specs.Prelude.{◌%◌, None, Some, if◌then◌else◌, nat_eq};

use hd_list::{Keys, numbers_by_key};

// The numbers below ten, each by what is left when it is divided by three. A multiple of four has no key.
struct Remainders;

impl Keys for Remainders {
    ghost many = { λ _. 10 };

    ghost key_of = { λ _ number. if nat_eq (number % 4) 0 then None else Some (number % 3) };

    fn count(&self) -> u32 {
        10
    }

    fn key(&self, number: u32) -> Option<u32> {
        if number % 4 == 0 {
            None
        } else {
            Some(number % 3)
        }
    }
}

/// Numbers come by their keys, and those of one key in their order. A number without a key doesn't come.
#[test]
fn numbers_come_by_their_keys(rt: HostRuntime) {
    let numbers = numbers_by_key(rt.alloc(), &Remainders, 3).expect(&rt, "memory");
    assert!(rt; numbers.as_slice() == [3, 6, 9, 1, 7, 2, 5].as_slice());
}
