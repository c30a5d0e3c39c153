// The first lines of generated kernels, and the last.

use kernel_gen::generated_text;
use std::test::Fail;

const HEAD: &str = "def main():\n    core.reset()\n    for k in range(100):\n";

struct Lines {
    number: u64,
    first: &'static str,
    last: &'static str,
}

const LINES: &[Lines] = &[
    Lines {
        number: 0,
        first: "        delay_mu(815)\n        ttl1.pulse_mu(62)\n        delay_mu(432)\n        ttl1.pulse_mu(19)\n",
        last: "        delay_mu(490)\n        ttl11.pulse_mu(31)\n",
    },
    Lines {
        number: 1,
        first: "        delay_mu(782)\n        ttl6.pulse_mu(71)\n        delay_mu(161)\n        ttl8.pulse_mu(44)\n        delay_mu(204)\n        ttl10.pulse_mu(17)\n",
        last: "        delay_mu(481)\n        ttl13.pulse_mu(62)\n",
    },
    Lines {
        number: 9_223_372_036_854_775_807,
        first: "        delay_mu(672)\n        ttl3.pulse_mu(53)\n        delay_mu(527)\n        ttl3.pulse_mu(58)\n        delay_mu(861)\n        ttl0.pulse_mu(12)\n",
        last: "        delay_mu(675)\n        ttl0.pulse_mu(63)\n",
    },
];

#[test]
fn a_number_makes_its_pulses(rt: HostRuntime) -> Result<(), Fail> {
    for lines in LINES {
        let Lines {
            number,
            first,
            last,
        } = lines;
        let bytes = generated_text(rt.alloc(), *number)?;
        let Ok(text) = str::from_utf8(&bytes) else {
            panic!(rt; "{number}: no text");
        };
        assert!(rt; text.starts_with(HEAD), "{number}: {text}");
        let pulses = text.split_at(HEAD.len()).1;
        assert!(rt; pulses.starts_with(*first), "{number}: {text}");
        assert!(rt; text.ends_with(*last), "{number}: {text}");
        // Three lines, and two for each of 200 pulses.
        assert_eq!(rt; text.lines().count(), 403);
    }
    Ok(())
}
