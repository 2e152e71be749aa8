// The thirteen lines that the product carries: those for producer's risk quality 1.00 %, named by consumer's risk quality.
ghost use Rattle.std.specs.Prelude.{◌≡◌, ◌==◌, IsTrue};
ghost use Rattle.std.specs.Option.{option_map};
ghost use Rattle.std.specs.List.{find};
ghost use Rattle.plan.specs.Carried.{Holds, all_within, carried_lines, line_of};

use crate::numbers::LineNumbers;

// A carried line: the consumer's risk quality, in hundredths of a percent, and the numbers of its line.
#[derive(Clone, Copy)]
pub struct CarriedLine {
    pub quality: u32,
    pub numbers: LineNumbers,
}

const CARRIED: [CarriedLine; 13] = [
    CarriedLine {
        quality: 200,
        numbers: LineNumbers {
            accept_intercept: 3_181_000,
            reject_intercept: 4_255_000,
            slope: 14_300,
            cut_size: 1801,
            cut_number: 25,
        },
    },
    CarriedLine {
        quality: 250,
        numbers: LineNumbers {
            accept_intercept: 2_434_000,
            reject_intercept: 3_077_000,
            slope: 16_300,
            cut_size: 906,
            cut_number: 14,
        },
    },
    CarriedLine {
        quality: 315,
        numbers: LineNumbers {
            accept_intercept: 1_871_000,
            reject_intercept: 2_430_000,
            slope: 18_400,
            cut_size: 536,
            cut_number: 9,
        },
    },
    CarriedLine {
        quality: 400,
        numbers: LineNumbers {
            accept_intercept: 1_581_000,
            reject_intercept: 1_851_000,
            slope: 21_500,
            cut_size: 311,
            cut_number: 6,
        },
    },
    CarriedLine {
        quality: 500,
        numbers: LineNumbers {
            accept_intercept: 1_389_000,
            reject_intercept: 1_591_000,
            slope: 25_100,
            cut_size: 189,
            cut_number: 4,
        },
    },
    CarriedLine {
        quality: 630,
        numbers: LineNumbers {
            accept_intercept: 1_181_000,
            reject_intercept: 1_308_000,
            slope: 28_800,
            cut_size: 127,
            cut_number: 3,
        },
    },
    CarriedLine {
        quality: 800,
        numbers: LineNumbers {
            accept_intercept: 1_058_000,
            reject_intercept: 1_046_000,
            slope: 34_100,
            cut_size: 77,
            cut_number: 2,
        },
    },
    CarriedLine {
        quality: 1000,
        numbers: LineNumbers {
            accept_intercept: 931_000,
            reject_intercept: 922_000,
            slope: 39_400,
            cut_size: 65,
            cut_number: 2,
        },
    },
    CarriedLine {
        quality: 1250,
        numbers: LineNumbers {
            accept_intercept: 850_000,
            reject_intercept: 940_000,
            slope: 46_600,
            cut_size: 37,
            cut_number: 1,
        },
    },
    CarriedLine {
        quality: 1600,
        numbers: LineNumbers {
            accept_intercept: 721_000,
            reject_intercept: 779_000,
            slope: 55_400,
            cut_size: 30,
            cut_number: 1,
        },
    },
    CarriedLine {
        quality: 2000,
        numbers: LineNumbers {
            accept_intercept: 659_000,
            reject_intercept: 672_000,
            slope: 65_800,
            cut_size: 22,
            cut_number: 1,
        },
    },
    CarriedLine {
        quality: 2500,
        numbers: LineNumbers {
            accept_intercept: 700_000,
            reject_intercept: 650_000,
            slope: 79_400,
            cut_size: 15,
            cut_number: 1,
        },
    },
    CarriedLine {
        quality: 3150,
        numbers: LineNumbers {
            accept_intercept: 580_000,
            reject_intercept: 500_000,
            slope: 96_500,
            cut_size: 11,
            cut_number: 1,
        },
    },
];

// The numbers of the first line of a quality.
fn line_of(lines: &[CarriedLine], quality: u32) -> Option<LineNumbers>
    ensures { result ≡ option_map (λ c. c.numbers) (find (λ c. c.quality == quality) lines.now) }
{
    lines
        .iter()
        .find(|line| line.quality == quality)
        .map(|line| line.numbers)
}

// The numbers of the carried line of a consumer's risk quality, in hundredths of a percent.
pub fn carried_line(quality: u32) -> Option<LineNumbers>
    ensures line { Holds (line_of quality carried_lines) result }
    ensures limits { IsTrue (all_within carried_lines) }
{
    line_of(&CARRIED, quality)
}
