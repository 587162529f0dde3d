// The permissions of a file that takes the place of another one.
ghost use Rattle.std.specs.Prelude.{◌≡◌, ◌+◌, ◌*◌, ◌/◌, ◌%◌, true, false};
ghost use Rattle.hd_base.specs.Access.{GivesNoMore, IsAccess};

/// What the owner, the group and all others may do, three bits each.
#[derive(Clone, Copy)]
pub(crate) struct Access {
    owner: u32,
    group: u32,
    other: u32,
}

impl Access {
    /// The permissions of a mode.
    pub(crate) fn of_mode(mode: u32) -> Self
        ensures three_bits { IsAccess result }
        ensures value { result ≡ record { owner = mode / 64 % 8; group = mode / 8 % 8; other = mode % 8 } }
    {
        Access {
            owner: mode / 64 % 8,
            group: mode / 8 % 8,
            other: mode % 8,
        }
    }

    /// The mode of a file with these permissions.
    pub(crate) fn mode(self) -> u32
        requires { IsAccess self }
        ensures { result ≡ self.owner * 64 + self.group * 8 + self.other }
    {
        self.owner * 64 + self.group * 8 + self.other
    }

    /// The permissions of a file that takes the place of one with these, by whether it has the same
    /// owner and the same group.
    ///
    /// A new owner may do what the old group could, and where the group is new too, what all others
    /// could. A new group may do nothing. No one else may do what the old owner could not, or, where
    /// the group is new, what the old group could not.
    pub(crate) fn handed_on(self, keeps_owner: bool, keeps_group: bool) -> Self
        requires { IsAccess self }
        ensures three_bits { IsAccess result }
        ensures no_more { GivesNoMore keeps_owner keeps_group self result }
        ensures all { keeps_owner ≡ true → keeps_group ≡ true → result ≡ self }
        ensures group { keeps_group ≡ false → result.group ≡ 0 }
        ensures owner { keeps_owner ≡ false → keeps_group ≡ true → result.owner ≡ self.group }
    {
        let Access {
            owner,
            group,
            other,
        } = self;
        match (keeps_owner, keeps_group) {
            (true, true) => self,
            (true, false) => Access {
                owner,
                group: 0,
                other: other & group,
            },
            (false, true) => Access {
                owner: group,
                group: group & owner,
                other: other & owner,
            },
            (false, false) => Access {
                owner: other,
                group: 0,
                other: other & group & owner,
            },
        }
    }
}
