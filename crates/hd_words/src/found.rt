// The names and the values of options among the words, found without taking memory.
ghost use Rattle.std.specs.Prelude.{◌≡◌, [], ◌∷◌, ◌++◌, length, drop, map, nat_eq, string_bytes, IfNone, IfSome, if◌then◌else◌};
ghost use Rattle.std.specs.List.{starts_with};
ghost use Rattle.std.specs.Option.{option_copied};
ghost use Rattle.hd_words.specs.GivenWords.{begins_with_dash, given_of};
ghost use Rattle.hd_words.specs.WordSteps.{HasNoForm, IsNoOptionAlone, IsRefused, LeadsTo, at_stage, found_so_far};

// What the next word may be: an option or a name, the value of `--tile` or of `--save`, or a name
// alone.
#[derive(Clone, Copy)]
enum Stage {
    Options,
    TileValue,
    SaveValue,
    Names,
}

/// The names so far.
#[derive(Clone, Copy)]
pub enum FoundNames<'a> {
    Zero,
    One(&'a str),
    Two(&'a str, &'a str),
    Three(&'a str, &'a str, &'a str),
    Four(&'a str, &'a str, &'a str, &'a str),
}

/// What the words so far have given.
#[derive(Clone, Copy)]
pub struct FoundWords<'a> {
    pub names: FoundNames<'a>,
    pub tile: Option<&'a str>,
    pub save: Option<&'a str>,
}

// How far the words are read.
#[derive(Clone, Copy)]
struct Progress<'a> {
    stage: Stage,
    found: FoundWords<'a>,
}

/// What the words after the command give. None comes where they are refused, or are too many for
/// each form.
pub fn found_in(words: &[String]) -> Option<FoundWords<'_>>
    ensures none { IfNone result (HasNoForm (given_of Stage.Options (map string_bytes words.now))) }
    ensures some { IfSome result
        (λ found. given_of Stage.Options (map string_bytes words.now) ≡ Some (found_so_far found)) }
{
    let mut progress = Progress {
        stage: Stage::Options,
        found: FoundWords {
            names: FoundNames::Zero,
            tile: None,
            save: None,
        },
    };
    for word in words {
        progress = after_word(progress, word.as_str())?;
    }
    match progress.stage {
        Stage::Options | Stage::Names => Some(progress.found),
        Stage::TileValue | Stage::SaveValue => None,
    }
}

// Reads the next word.
fn after_word<'a>(progress: Progress<'a>, word: &'a str) -> Option<Progress<'a>>
    ensures none { IfNone result (IsRefused progress.entry word.now) }
    ensures some { IfSome result (λ next. LeadsTo progress.entry word.now next) }
{
    match progress.stage {
        Stage::Options => after_option(progress.found, word),
        Stage::TileValue => with_tile(progress.found, word),
        Stage::SaveValue => with_save(progress.found, word),
        Stage::Names => Some(Progress {
            stage: Stage::Names,
            found: with_name(progress.found, word)?,
        }),
    }
}

// Reads the next word where it is an option or a name.
fn after_option<'a>(found: FoundWords<'a>, word: &'a str) -> Option<Progress<'a>>
    ensures none { IfNone result (IsRefused (at_stage Stage.Options found.entry) word.now) }
    ensures some { IfSome result (λ next. LeadsTo (at_stage Stage.Options found.entry) word.now next) }
{
    if word == "--" {
        Some(Progress {
            stage: Stage::Names,
            found,
        })
    } else if word == "--tile" {
        Some(Progress {
            stage: Stage::TileValue,
            found,
        })
    } else if word == "--save" {
        Some(Progress {
            stage: Stage::SaveValue,
            found,
        })
    } else {
        after_joined(found, word)
    }
}

// Reads the next word where it is an option with its value, or a name.
fn after_joined<'a>(found: FoundWords<'a>, word: &'a str) -> Option<Progress<'a>>
    requires { IsNoOptionAlone word.now }
    ensures none { IfNone result (IsRefused (at_stage Stage.Options found.entry) word.now) }
    ensures some { IfSome result (λ next. LeadsTo (at_stage Stage.Options found.entry) word.now next) }
{
    if let Some(value) = joined_value(word, "--tile=") {
        with_tile(found, value)
    } else if let Some(value) = joined_value(word, "--save=") {
        with_save(found, value)
    } else if is_option(word) {
        None
    } else {
        Some(Progress {
            stage: Stage::Options,
            found: with_name(found, word)?,
        })
    }
}

// The value in a word such as `--tile=VALUE`, which begins with this text.
fn joined_value<'a>(word: &'a str, option: &str) -> Option<&'a str>
    ensures { option_copied result
        ≡ (if starts_with nat_eq word.now option.now then Some (drop (length option.now) word.now) else None) }
{
    word.strip_prefix(option)
}

/// Whether a word begins with `-`.
pub fn is_option(word: &str) -> bool
    ensures { result ≡ begins_with_dash word.now }
{
    matches!(word.as_bytes(), [b'-', ..])
}

// One more value of `--tile`, where it is the first.
fn with_tile<'a>(found: FoundWords<'a>, value: &'a str) -> Option<Progress<'a>>
    ensures none { IfNone result (IsRefused (at_stage Stage.TileValue found.entry) value.now) }
    ensures some { IfSome result (λ next. LeadsTo (at_stage Stage.TileValue found.entry) value.now next) }
{
    match found.tile {
        Some(_) => None,
        None => Some(Progress {
            stage: Stage::Options,
            found: FoundWords {
                names: found.names,
                tile: Some(value),
                save: found.save,
            },
        }),
    }
}

// One more value of `--save`, where it is the first.
fn with_save<'a>(found: FoundWords<'a>, value: &'a str) -> Option<Progress<'a>>
    ensures none { IfNone result (IsRefused (at_stage Stage.SaveValue found.entry) value.now) }
    ensures some { IfSome result (λ next. LeadsTo (at_stage Stage.SaveValue found.entry) value.now next) }
{
    match found.save {
        Some(_) => None,
        None => Some(Progress {
            stage: Stage::Options,
            found: FoundWords {
                names: found.names,
                tile: found.tile,
                save: Some(value),
            },
        }),
    }
}

// One more name, where there are not four yet.
fn with_name<'a>(found: FoundWords<'a>, name: &'a str) -> Option<FoundWords<'a>>
    ensures none { IfNone result (length (found_so_far found.entry).names ≡ 4) }
    ensures some { IfSome result (λ more. found_so_far more ≡ record {
      names = (found_so_far found.entry).names ++ (name.now ∷ []);
      tiles = (found_so_far found.entry).tiles;
      saves = (found_so_far found.entry).saves;
    }) }
{
    let names = match found.names {
        FoundNames::Zero => FoundNames::One(name),
        FoundNames::One(first) => FoundNames::Two(first, name),
        FoundNames::Two(first, second) => FoundNames::Three(first, second, name),
        FoundNames::Three(first, second, third) => FoundNames::Four(first, second, third, name),
        FoundNames::Four(..) => return None,
    };
    Some(FoundWords {
        names,
        tile: found.tile,
        save: found.save,
    })
}
