// Numbers in classes that grow together.
ghost use Rattle.std.specs.Prelude.{◌≡◌, ◌<◌, ◌^◌, ◌↔◌, ℕ, IfOk, true, false, length};
ghost use Rattle.hd_graph.specs.Classes.{AreFalling, AreLeastsOf, AreOneClass, IsLeast, Joins};

use hd_list::Memory;
use std::alloc::Global;

/// The numbers below a bound in classes.
#[derive(Drop)]
pub struct Classes {
    /// By number, one of its class that is less, and itself where it is the least.
    pub parents: Vec<u32>,
}

impl Classes {
    /// Each number in a class of its own.
    pub fn new(alloc: Global, count: usize) -> Result<Classes, Memory>
        requires { count < 2 ^ 32 }
        ensures falling { IfOk result (λ classes. AreFalling classes.parents.items) }
        ensures long { IfOk result (λ classes. length classes.parents.items ≡ count) }
        ensures own { IfOk result (λ classes. (x y : ℕ) → AreOneClass classes.parents.items x y → x ≡ y) }
    {
        let mut parents = Vec::with_capacity(alloc, count)?;
        for number in 0..count {
            parents.push(number as u32)?;
        }
        Ok(Classes { parents })
    }

    /// Puts the classes of two numbers together, and says whether they were apart.
    pub fn join(&mut self, a: u32, b: u32) -> bool
        requires falling { AreFalling self.old.parents.items }
        requires first { a < length self.old.parents.items }
        requires second { b < length self.old.parents.items }
        ensures falling { AreFalling self.new.parents.items }
        ensures long { length self.new.parents.items ≡ length self.old.parents.items }
        ensures apart { result ≡ true → AreOneClass self.old.parents.items a b → ⊥ }
        ensures joins { result ≡ true → Joins self.old.parents.items a b self.new.parents.items }
        ensures one { result ≡ false → AreOneClass self.old.parents.items a b }
        ensures same { result ≡ false → (x y : ℕ) → AreOneClass self.new.parents.items x y
            ↔ AreOneClass self.old.parents.items x y }
    {
        let (first, second) = self.leasts_of(a, b);
        if first == second {
            return false;
        }
        self.unite(first, second);
        true
    }

    /// The least numbers of the classes of two numbers.
    pub(crate) fn leasts_of(&mut self, a: u32, b: u32) -> (u32, u32)
        requires falling { AreFalling self.old.parents.items }
        requires first { a < length self.old.parents.items }
        requires second { b < length self.old.parents.items }
        ensures falling { AreFalling self.new.parents.items }
        ensures long { length self.new.parents.items ≡ length self.old.parents.items }
        ensures inside { (result.0 < length self.new.parents.items)
            × (result.1 < length self.new.parents.items) }
        ensures found { AreLeastsOf self.old.parents.items self.new.parents.items a b result.0 result.1 }
    {
        let first = self.least_of(a);
        let second = self.least_of(b);
        (first, second)
    }

    /// Puts two classes together, which are given by their least numbers. The answer is the least number of both.
    pub fn unite(&mut self, first: u32, second: u32) -> u32
        requires falling { AreFalling self.old.parents.items }
        requires first { IsLeast self.old.parents.items first }
        requires second { IsLeast self.old.parents.items second }
        ensures falling { AreFalling self.new.parents.items }
        ensures long { length self.new.parents.items ≡ length self.old.parents.items }
        ensures joins { Joins self.old.parents.items first second self.new.parents.items }
        ensures one { AreOneClass self.new.parents.items first result }
        ensures least { IsLeast self.new.parents.items result }
        ensures leasts { (x : ℕ) → IsLeast self.new.parents.items x → IsLeast self.old.parents.items x }
    {
        let least = first.min(second);
        let greater = first.max(second);
        self.parents[greater as usize] = least;
        least
    }

    /// The least number of a class. Those on the way get parents further on, so that later ways are short.
    pub fn least_of(&mut self, number: u32) -> u32
        requires falling { AreFalling self.old.parents.items }
        requires inside { number < length self.old.parents.items }
        ensures falling { AreFalling self.new.parents.items }
        ensures long { length self.new.parents.items ≡ length self.old.parents.items }
        ensures inside { result < length self.new.parents.items }
        ensures one { AreOneClass self.old.parents.items number result }
        ensures least { IsLeast self.new.parents.items result }
        ensures leasts { (x : ℕ) → IsLeast self.new.parents.items x ↔ IsLeast self.old.parents.items x }
        ensures same { (x y : ℕ) → AreOneClass self.new.parents.items x y
            ↔ AreOneClass self.old.parents.items x y }
    {
        let mut least = number;
        while self.parents[least as usize] != least {
            let parent = self.parents[least as usize];
            let next = self.parents[parent as usize];
            self.parents[least as usize] = next;
            least = next;
        }
        least
    }
}
