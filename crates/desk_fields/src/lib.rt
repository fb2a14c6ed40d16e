// The fields of a line, read one by one off what is left of it.
#![tactic(auto)]

// What is left of a line. Each field stands behind a tab. Where a field is not there, nothing is taken.
#[derive(Clone, Copy)]
pub struct Fields<'a> {
    pub rest: &'a [u8],
}

impl<'a> Fields<'a> {
    ghost use Rattle.std.specs.Prelude.{◌≡◌, IfNone};
    ghost use Rattle.desk_fields.specs.Field.{leaving, byte_of, tab_of, bits_of, number_of, digit_of, mark_of, run_of, record_of, end_of};

    pub fn byte(&mut self) -> Option<u8>
        ensures read { leaving result self.new.rest.now ≡ byte_of self.old.rest.now }
        ensures none { IfNone result (self.new ≡ self.old) }
    {
        let (&b, rest) = self.rest.split_first()?;
        self.rest = rest;
        Some(b)
    }

    fn tab(&mut self) -> Option<()>
        ensures { leaving result self.new.rest.now ≡ tab_of self.old.rest.now }
    {
        match self.byte()? {
            b'\t' => Some(()),
            _ => None,
        }
    }

    // The number whose 16 hex digits are next.
    #[tactic(auto, using(crate::proofs::Steps::bits_more), unfolding(crate::specs::Field::bits_after))]
    fn bits(&mut self) -> Option<u64>
        ensures { leaving result self.new.rest.now ≡ bits_of self.old.rest.now }
    {
        let mut bits = 0;
        for _ in 0..16u64 {
            bits = bits * 16 + u64::from(digits::hex_value(u64::from(self.byte()?))?);
        }
        Some(bits)
    }

    #[tactic(auto, unfolding(crate::specs::Field::number_of))]
    pub fn number(&mut self) -> Option<f64>
        ensures read { leaving result self.new.rest.now ≡ number_of self.old.rest.now }
        ensures none { IfNone result (self.new ≡ self.old) }
    {
        let mut fields = *self;
        fields.tab()?;
        let bits = fields.bits()?;
        *self = fields;
        Some(scalar::from_bits(bits))
    }

    #[tactic(auto, unfolding(crate::specs::Field::digit_of))]
    pub fn digit(&mut self) -> Option<u8>
        ensures read { leaving result self.new.rest.now ≡ digit_of self.old.rest.now }
        ensures none { IfNone result (self.new ≡ self.old) }
    {
        let mut fields = *self;
        fields.tab()?;
        let digit = digits::digit_value(u64::from(fields.byte()?))?;
        *self = fields;
        Some(digit)
    }

    #[tactic(auto, unfolding(crate::specs::Field::mark_of))]
    pub fn mark(&mut self) -> Option<bool>
        ensures read { leaving result self.new.rest.now ≡ mark_of self.old.rest.now }
        ensures none { IfNone result (self.new ≡ self.old) }
    {
        let mut fields = *self;
        let mark = match fields.digit()? {
            0 => false,
            1 => true,
            _ => return None,
        };
        *self = fields;
        Some(mark)
    }

    // The number whose digits are next, however many. All numbers above 64 are 65.
    #[tactic(auto, unfolding(crate::specs::Field::run_after))]
    fn run(&mut self) -> usize
        ensures { (result, self.new.rest.now) ≡ run_of self.old.rest.now }
    {
        let mut number = 0;
        while let Some((&b, rest)) = self.rest.split_first() {
            let Some(digit) = digits::digit_value(u64::from(b)) else {
                break;
            };
            number = (number * 10 + usize::from(digit)).min(65);
            self.rest = rest;
        }
        number
    }

    // A record number begins with 1 to 9.
    #[tactic(auto, unfolding(crate::specs::Field::record_of))]
    pub fn record(&mut self) -> Option<usize>
        ensures read { leaving result self.new.rest.now ≡ record_of self.old.rest.now }
        ensures none { IfNone result (self.new ≡ self.old) }
    {
        let mut fields = *self;
        fields.tab()?;
        let b'1'..=b'9' = fields.rest.first()? else {
            return None;
        };
        let number = fields.run();
        *self = fields;
        Some(number)
    }

    // No field is left.
    pub fn end(&self) -> Option<()>
        ensures { result ≡ end_of self.now.rest.now }
    {
        self.rest.is_empty().then_some(())
    }
}
