// The layout is specifications only: see specs/.
