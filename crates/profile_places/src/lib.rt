// Where each rule of the driver's profile is first broken: specifications only.
