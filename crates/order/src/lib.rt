// The reader's place in the order of the records. A rule of the project asks for this form, a state by value with a method for each kind of record:
// so each kind has its own test of order, its own limit and its own step, and no one test takes the kind beside the place.
// `specs/Seen.antt` says which place of the theory it is.
#![tactic(auto)]

ghost use Rattle.std.specs.Prelude.{◌≡◌, true, ◌<◌, ltb};
ghost use Rattle.timeline.specs.Design.{no_port, no_call, constant};
ghost use Rattle.entry.specs.Records.{input, output, instance, invocation, argument, connection};
ghost use Rattle.reading.specs.Place.{begun, may, may_end, moved};
ghost use Rattle.order.specs.Seen.{seen, closed};

#[derive(Clone, Copy, Debug, Default, PartialEq, Eq)]
pub struct Place {
    pub built: bool,
    // how many of each kind have been read
    pub inputs: usize,
    pub outputs: usize,
    pub instances: usize,
    pub invocations: usize,
    pub connections: usize,
    // arguments still to come
    pub due: usize,
}

// The place after a component record.
pub fn begun(built: bool) -> Place
    ensures { seen result ≡ begun built }
{
    Place {
        built,
        ..Place::default()
    }
}

// The place before the first record, at which nothing but a component may stand: a leaf with a connection. So the first record is judged
// as any other (docs/DECISIONS.md, "A component at a time"); with an `Option` of a place every method would ask first whether there is one.
pub fn closed() -> Place
    ensures { seen result ≡ closed }
{
    Place {
        connections: 1,
        ..Place::default()
    }
}

// Refusal 5: whether a record of each kind may stand here, and whether the component may end here.
impl Place {
    pub fn may_input(self) -> bool
        ensures { result ≡ may (seen self) (input no_port) }
    {
        (self.outputs == 0)
            & ((self.instances == 0) & ((self.invocations == 0) & (self.connections == 0)))
    }

    pub fn may_output(self) -> bool
        ensures { result ≡ may (seen self) (output no_port) }
    {
        (self.instances == 0) & ((self.invocations == 0) & (self.connections == 0))
    }

    pub fn may_instance(self) -> bool
        ensures { result ≡ may (seen self) (instance 0) }
    {
        self.built & ((self.invocations == 0) & (self.connections == 0))
    }

    pub fn may_invocation(self) -> bool
        ensures { result ≡ may (seen self) (invocation no_call) }
    {
        self.built & ((self.due == 0) & (self.connections == 0))
    }

    // Only a built component has arguments due.
    pub fn may_argument(self) -> bool
        requires { 0 < self.due → self.built ≡ true }
        ensures { result ≡ may (seen self) (argument (constant 0)) }
    {
        0 < self.due
    }

    pub fn may_connection(self) -> bool
        ensures { result ≡ may (seen self) (connection (constant 0)) }
    {
        self.built & ((self.due == 0) & (self.connections < self.outputs))
    }

    // Nothing of the component is missing.
    pub fn may_end(self) -> bool
        ensures { result ≡ may_end (seen self) }
    {
        (self.due == 0) & (!self.built | (self.connections == self.outputs))
    }
}

// Refusal 6: "16 inputs, 16 outputs, 32 instances, 64 invocations", whether there is room for one more.
impl Place {
    pub fn room_for_input(self) -> bool
        ensures { result ≡ ltb (seen self).inputs 16 }
    {
        self.inputs < 16
    }

    pub fn room_for_output(self) -> bool
        ensures { result ≡ ltb (seen self).outputs 16 }
    {
        self.outputs < 16
    }

    pub fn room_for_instance(self) -> bool
        ensures { result ≡ ltb (seen self).instances 32 }
    {
        self.instances < 32
    }

    pub fn room_for_invocation(self) -> bool
        ensures { result ≡ ltb (seen self).invocations 64 }
    {
        self.invocations < 64
    }
}

// The next place, after a record that may stand here and for which there is room.
impl Place {
    pub fn input(mut self) -> Place
        requires { self.inputs < 16 }
        ensures { seen result ≡ moved (seen self) (input no_port) 0 }
    {
        self.inputs += 1;
        self
    }

    pub fn output(mut self) -> Place
        requires { self.outputs < 16 }
        ensures { seen result ≡ moved (seen self) (output no_port) 0 }
    {
        self.outputs += 1;
        self
    }

    pub fn instance(mut self) -> Place
        requires { self.instances < 32 }
        ensures { seen result ≡ moved (seen self) (instance 0) 0 }
    {
        self.instances += 1;
        self
    }

    // inputs: of the invoked component, "one argument for every input".
    pub fn invocation(mut self, inputs: usize) -> Place
        requires { self.invocations < 64 }
        ensures { seen result ≡ moved (seen self) (invocation no_call) inputs }
    {
        self.invocations += 1;
        self.due = inputs;
        self
    }

    pub fn argument(mut self) -> Place
        requires { 0 < self.due }
        ensures { seen result ≡ moved (seen self) (argument (constant 0)) 0 }
    {
        self.due -= 1;
        self
    }

    pub fn connection(mut self) -> Place
        requires { self.connections < self.outputs }
        ensures { seen result ≡ moved (seen self) (connection (constant 0)) 0 }
    {
        self.connections += 1;
        self
    }
}
